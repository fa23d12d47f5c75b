// The definition of the assembler: the grammar of a line, the word that a line stands for, the reader. No code: see specs/.
#![tactic(auto)]
