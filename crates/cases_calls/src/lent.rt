// What a case lends to its call.
use reading::read_number;
use std::io::{self, Read};

// Room for the largest case.
#[derive(Drop)]
pub struct Buffers {
    pub store: [u32; 64],
    pub characters: [u8; 257],
    pub typing: [u8; 512],
}

// The front of each buffer, as far as the case asks for it.
#[derive(Drop)]
pub struct Lent<'a> {
    pub store: &'a mut [u32],
    pub characters: &'a mut [u8],
    pub typing: &'a mut [u8],
}

impl Lent<'_> {
    pub fn read(&mut self, input: &mut impl Read) -> io::Result<()> {
        for x in self.store.iter_mut() {
            *x = read_number(input)?;
        }
        read_bytes(input, self.characters)?;
        read_bytes(input, self.typing)
    }
}

fn read_bytes(input: &mut impl Read, bytes: &mut [u8]) -> io::Result<()> {
    for x in bytes.iter_mut() {
        *x = (read_number(input)? % 256) as u8;
    }
    Ok(())
}
