// The lines of a listing: the bytes between its newlines. A final newline opens no further line.
#![tactic(auto)]

ghost use Rattle.std.specs.Prelude.{◌≡◌, ◌≤◌, ◌==◌, length};
ghost use Rattle.std.specs.List.{position};
ghost use Rattle.std.specs.Iterator.{YieldsFirstBy, item_count};
ghost use Rattle.listing.specs.Lines.{to_newline, line_end, lines, bytes};

// The bytes of the longest listing.
pub const MOST_BYTES: usize = 65536;

fn newline(text: &[u8]) -> Option<usize>
    ensures { result ≡ position (λ b. b == 10) text.now }
{
    text.iter().position(|b| *b == b'\n')
}

// How many bytes stand before the first newline, all where there is none.
fn to_newline(text: &[u8]) -> usize
    ensures place { result ≡ to_newline text.now }
    ensures inside { result ≤ length text.now }
{
    newline(text).unwrap_or(text.len())
}

// Where the line from `start` on ends: at its newline, or at the end of the listing.
#[tactic(auto, using(crate::proofs::Cut::to_newline_from), unfolding(crate::specs::Lines::line_end))]
pub fn line_end(listing: &[u8], start: usize) -> usize
    requires { start ≤ length listing.now }
    ensures place { result ≡ line_end listing.now start }
    ensures after { start ≤ result }
    ensures inside { result ≤ length listing.now }
{
    start + to_newline(&listing[start..])
}

// The lines of a listing that are still to come, one after the other.
#[derive(Clone, Copy)]
pub struct Lines<'a> {
    pub rest: &'a [u8],
}

impl<'a> Lines<'a> {
    pub fn of(listing: &'a [u8]) -> Lines<'a>
        ensures { result.rest.now ≡ listing.now }
    {
        Lines { rest: listing }
    }
}

impl<'a> Iterator for Lines<'a> {
    type Item = &'a [u8];

    ghost next_gives = { YieldsFirstBy bytes (λ s. lines s.rest.now) };

    ghost remaining = { item_count (λ s. lines s.rest.now) };

    fn next(&mut self) -> Option<&'a [u8]> {
        if self.rest.is_empty() {
            return None;
        }
        let end = to_newline(self.rest);
        let line = &self.rest[..end];
        self.rest = &self.rest[(end + 1).min(self.rest.len())..];
        Some(line)
    }
}
