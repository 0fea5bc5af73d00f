// The commands of a script, the line that each is written as, and the reader that takes a line for its command.
#![tactic(auto)]

ghost use Rattle.std.specs.Prelude.{◌≡◌};
ghost use Rattle.script_command.specs.Answer.{line_outcome, command_answer};

use katan::Key;

mod lines;
mod reader;

// How many bytes a line has at most, without its line feed.
pub const LINE_LENGTH: usize = 120;

// A bench line, a read line, or one of the four record lines.
#[derive(Clone, Copy)]
pub enum Command {
    Bench {
        variant: u8,
    },
    Read {
        lane: u8,
    },
    Load {
        number: u32,
        lane: u8,
        position: u8,
        key: Key,
        block: u64,
    },
    Forward {
        number: u32,
        mask: u64,
        count: u8,
    },
    Back {
        number: u32,
        mask: u64,
        count: u8,
    },
    Clear {
        number: u32,
        mask: u64,
    },
}

// The command that a line is written for, on an open bench of a variant; 0 is the variant where none is open, as command_answer in specs/ has it.
#[tactic(auto, unfolding(crate::specs::Answer::command_answer))]
pub fn command_in(variant: u8, line: &[u8]) -> Option<Command>
    ensures { line_outcome result ≡ command_answer variant line.now }
{
    lines::command_in(variant, line)
}
