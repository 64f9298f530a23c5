// Document 02, K3, the writer: the plant file of a panel, put into a lent buffer from its front.
#![tactic(auto)]

mod lines;

ghost use Rattle.std.specs.Prelude.{◌≡◌};
ghost use Rattle.answers.specs.Rules.{carried};
ghost use Rattle.panel.specs.Panel.{model_of};
ghost use Rattle.panel.specs.Calls.{row};
ghost use Rattle.plant.specs.Written.{file_rule};
ghost use Rattle.plant_writer.specs.Writer.{written_of};

use crate::lines::put_lines;
use answers::Refusal;
use fields::ROOM;
use panel::Panel;

// How many bytes the file has. Refused by 13, then by 12. The rest of the buffer stays as it was.
#[tactic(auto, using(crate::proofs::Filled::short_refused, crate::proofs::Filled::unsound_refused))]
pub fn write(panel: &Panel, out: &mut [u8]) -> Result<usize, Refusal>
    ensures { written_of result (model_of panel.now) (row out.new) ≡ carried file_rule (model_of panel.now) (row out.old) }
{
    if out.len() < ROOM {
        return Err(Refusal::ShortBuffer);
    }
    if !panel.is_sound() {
        return Err(Refusal::NotSound);
    }
    // Read for the proof alone: a number behind a reference is known to have 64 bits once it is read.
    let _word = panel.present.word;
    Ok(put_lines(panel, out))
}
