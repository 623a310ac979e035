// What the program can be asked to do.
use super::forms::{ABOUT_CARDS, ABOUT_LINES, Form};
use std::fmt;

// What the program says of itself.
#[derive(Clone, Copy)]
pub struct Help;

const HEAD: &str = "bench [--help]

Plays a script of calls from standard input, a command on each line, and prints a line for
each command. A # starts a comment, and blank lines are passed over.
";

const FOOT: &str = "
IN, OUT, N and POS are decimal, from 0 to 65535. MODE has four hexadecimal digits, and MASK, CMD,
PARAM, CHANNEL and POWER have two. HEX is any number of bytes of two hexadecimal digits, with
blanks between bytes or without; 00*250 stands for 250 bytes 00.
";

impl fmt::Display for Help {
    fn fmt<W: fmt::Write>(&self, f: &mut fmt::Formatter<W>) -> fmt::Result {
        f.write_str(HEAD)?;
        fmt_forms(f, "Lines and frames", &ABOUT_LINES)?;
        fmt_forms(f, "Stores, boards and settings", &ABOUT_CARDS)?;
        f.write_str(FOOT)
    }
}

fn fmt_forms<W: fmt::Write>(f: &mut fmt::Formatter<W>, title: &str, forms: &[Form]) -> fmt::Result {
    writeln!(f, "\n{title}:")?;
    for Form { words, does } in forms {
        writeln!(f, "  {words:<24}{does}")?;
    }
    Ok(())
}

// Whether an argument asks for help.
pub fn is_help(word: &str) -> bool {
    word == "--help" || word == "-h"
}
