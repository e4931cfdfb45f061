// The record of an open rebuild.
ghost use Rattle.std.specs.Prelude.{◌≡◌, ◌-◌, ◌≤◌, false};
ghost use Rattle.tables.specs.Codewords.{count as count_of};
ghost use Rattle.rebuild.specs.Plans.{stands_in};

use codes::list::FetchList;
use units::number::UnitNumber;

#[derive(Drop)]
pub(crate) struct OpenRebuild {
    pub(crate) unit: UnitNumber,
    // which units stood when it was opened, and its list
    pub(crate) stood: [bool; 14],
    pub(crate) list: FetchList,
    // how many halves are gathered: the first in the set's room
    pub(crate) count: u8,
    ghost within: { count ≤ list.len },
    ghost lost: { stands_in stood (unit.number - 1) ≡ false },
    ghost ten: { 10 ≤ count_of 14 (stands_in stood) },
}
