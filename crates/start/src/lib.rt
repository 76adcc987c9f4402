// The start: clocks 0, sites up, slots free, objects 0 and unheld, no visits, no messages. Each table is one repeated record.
#![tactic(auto)]

ghost use Rattle.std.specs.Prelude.{◌≡◌};
ghost use Rattle.rules.specs.Tables.{start};

use parts::message::no_message;
use parts::object::unheld;
use parts::passage::free_slot;
use parts::visit::no_visit;
use rules::tables::{Site, Tables};

#[tactic(auto, unfolding(rules::specs::Tables::start))]
pub fn start() -> Tables
    ensures { result ≡ start }
{
    let site = Site { clock: 0, up: true };
    Tables {
        sites: [site; 8],
        objects: [unheld(0); 32],
        passages: [free_slot(0); 16],
        visits: [no_visit(); 128],
        messages: [no_message(); 32],
    }
}
