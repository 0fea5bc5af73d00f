// A reader: the lent line, and the offset that is read next. As in lines, as loses nothing of a form's fields.
ghost use Rattle.std.specs.Prelude.{◌≡◌, slice_index};
ghost use Rattle.script_command.specs.scanner.Reading.{IsMove, load_in, move_in, clear_in, record_as};

use crate::Command;
use katan::Key;
use katan_numbers::byte_at;
use script_form::whole_at;

#[derive(Clone, Copy)]
pub struct Reader<'a> {
    pub line: &'a [u8],
    pub offset: usize,
}

impl<'a> Reader<'a> {
    // The letter that comes next, 0 at the end of the line.
    pub fn letter(self) -> u8
        ensures { result ≡ slice_index self.entry.line.now self.entry.offset }
    {
        byte_at(self.line, self.offset)
    }

    #[tactic(auto, unfolding(crate::specs::scanner::Reading::load_in))]
    fn load_in(self, number: u32, variant: u8) -> Option<Command>
        ensures { result ≡ load_in variant number self.entry.line.now self.entry.offset }
    {
        let found = whole_at(
            b"load % % (key &) (block *)))",
            self.line,
            self.offset,
            variant,
        )
        .ok()?;
        let [lane, position, high, low, block, ..] = found.values.words;
        let key = Key {
            low,
            high: high as u16,
        };
        Some(Command::Load {
            number,
            lane: lane as u8,
            position: position as u8,
            key,
            block,
        })
    }

    // The mask and the count of a move, of either direction.
    #[tactic(auto, unfolding(crate::specs::scanner::Reading::move_in))]
    fn move_in(self, form: &[u8]) -> Option<(u64, u8)>
        requires { IsMove form.now }
        ensures { result ≡ move_in form.now self.entry.line.now self.entry.offset }
    {
        let found = whole_at(form, self.line, self.offset, 0).ok()?;
        let [mask, count, ..] = found.values.words;
        Some((mask, count as u8))
    }

    #[tactic(auto, unfolding(crate::specs::scanner::Reading::clear_in))]
    fn clear_in(self, number: u32) -> Option<Command>
        ensures { result ≡ clear_in number self.entry.line.now self.entry.offset }
    {
        let found = whole_at(b"clear (lanes $)))", self.line, self.offset, 0).ok()?;
        let [mask, ..] = found.values.words;
        Some(Command::Clear { number, mask })
    }

    // The command of a record line, behind its number. A match on the letter: the forms have other fields each.
    pub fn record_as(self, number: u32, variant: u8) -> Option<Command>
        ensures { result ≡ record_as variant self.entry.line.now self.entry.offset number (slice_index self.entry.line.now self.entry.offset) }
    {
        match self.letter() {
            b'l' => self.load_in(number, variant),
            b'f' => {
                let (mask, count) = self.move_in(b"forward (lanes $) %))")?;
                Some(Command::Forward {
                    number,
                    mask,
                    count,
                })
            }
            b'b' => {
                let (mask, count) = self.move_in(b"back (lanes $) %))")?;
                Some(Command::Back {
                    number,
                    mask,
                    count,
                })
            }
            b'c' => self.clear_in(number),
            _ => None,
        }
    }
}
