// A plant file in a line: the panel is the file's, and what is answered is the number of the first bad line, or 0.
ghost use Rattle.std.specs.Prelude.{◌≤◌, ◌≡◌, length};
ghost use Rattle.texts.specs.Lent.{on};
ghost use Rattle.file_word.specs.FileWord.{unpacked};
ghost use Rattle.plant.specs.Read.{file_read};
ghost use Rattle.plant_reader.specs.Reader.{read_of};
ghost use Rattle.commands.specs.Lines.{longest, file_in};
ghost use Rattle.desk.specs.Desk.{Leaves};
ghost use Rattle.replies.specs.Replies.{loaded};

use commands::file_line::file_in;
use decimals::put_number;
use file_word::unpack;
use io::large_buffer;
use panel::Panel;
use plant_reader::{BadLine, FileRead, read};
use texts::Sheet;

pub(crate) fn load(line: &[u8], sheet: &mut Sheet<'_>) -> Panel
    requires { length line.now ≤ longest }
    ensures { Leaves (loaded (file_read (unpacked (file_in line.now))) (on sheet.old)) result sheet.old sheet.new }
{
    let FileRead { outcome, panel } = file_of(line);
    match outcome {
        Ok(_) => put_number(sheet, 0),
        Err(BadLine(number)) => put_number(sheet, number),
    }
    panel
}

// A file has no more bytes than its word, so the buffer takes that of any line.
fn file_of(line: &[u8]) -> FileRead
    requires { length line.now ≤ longest }
    ensures { read_of result ≡ file_read (unpacked (file_in line.now)) }
{
    let mut buffer = large_buffer();
    let length = unpack(file_in(line), &mut buffer);
    read(&buffer[..length])
}
