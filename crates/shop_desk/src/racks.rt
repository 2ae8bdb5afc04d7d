//! Takes the parts that a book hands out, but for whole units, as rows of a rack.

ghost use Rattle.shop_desk.specs.Racks.{TakesRack};

use shop_records::PartVisitor;
use shop_rules::{Part, RackList};

// Takes the parts with a job's name, as they are reported. It stops when memory runs out.
#[derive(Drop)]
pub struct RackTaker {
    pub parts: RackList,
}

impl PartVisitor for RackTaker {
    ghost looks = { TakesRack };

    fn part(&mut self, part: &Part) -> bool {
        part.is_whole() || self.parts.push(part.rack_row()).is_ok()
    }
}
