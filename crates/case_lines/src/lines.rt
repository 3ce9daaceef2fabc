// The lines of a test file.

ghost use Rattle.std.specs.Prelude.{OnOk, IfOk, IfSome, length};
ghost use Rattle.case_lines.specs.Lines.{GivesLine};

use std::io;

// The next line of the input, without its newline. None at the end of the input, and where the line ends in it or has no room.
pub fn read_line<'a, R: io::Read>(input: &mut R, room: &'a mut [u8]) -> io::Result<Option<&'a [u8]>>
    ensures { IfOk result (λ line. GivesLine (length room.old) (R.remaining input.old) (R.remaining input.new) line) }
{
    // An index: the line that is returned is the room's front before it.
    for k in 0..room.len() {
        let mut one = [0u8; 1];
        if input.read(&mut one)? == 0 {
            return Ok(None);
        }
        let [b] = one;
        if b == b'\n' {
            return Ok(Some(&room[..k]));
        }
        room[k] = b;
    }
    Ok(None)
}
