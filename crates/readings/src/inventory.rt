// Document 01, "Edits", inventory: the number of blinds and the lowest free tag, both read off the presence word.
ghost use Rattle.std.specs.Prelude.{◌≡◌};
ghost use Rattle.answers.specs.Rules.{carried};
ghost use Rattle.panel.specs.Panel.{model_of};
ghost use Rattle.panel.specs.Calls.{no_cells};
ghost use Rattle.readings.specs.Inventory.{inventory_rule, counted_of};

use answers::Refusal;
use panel::Panel;

// The number of blinds, and the lowest free tag.
#[derive(Clone, Copy)]
pub struct Counted {
    pub blinds: u32,
    pub lowest: u32,
}

// Refused by 12.
#[tactic(auto, unfolding(crate::specs::Inventory::inventory_rule))]
pub fn inventory(panel: &Panel) -> Result<Counted, Refusal>
    ensures { counted_of result (model_of panel.now) ≡ carried inventory_rule (model_of panel.now) no_cells }
{
    if !panel.is_sound() {
        return Err(Refusal::NotSound);
    }
    let blinds = panel.present.count();
    let lowest = panel.present.lowest_free();
    Ok(Counted { blinds, lowest })
}
