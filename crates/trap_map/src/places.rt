//! Places, and whose they are: the left-symmetric layout.

ghost use Rattle.std.specs.Prelude.{◌≡◌, ◌<◌};
ghost use Rattle.trap_model.specs.Image.{volume};
ghost use Rattle.trap_map.specs.Layout.{parity_member, block_place, owner_of};

use trap_model::Geometry;

/// A place of the array: one block of one member.
#[derive(Debug, Clone, Copy, PartialEq, Eq)]
pub struct Place {
    /// The member, from 0 on.
    pub member: u8,
    /// The block of that member, from 0 on.
    pub row: u32,
}

/// Whose a place is.
#[derive(Debug, Clone, Copy, PartialEq, Eq)]
pub enum Owner {
    /// The block with this number.
    Block(u32),
    /// The parity of its row.
    Parity,
}

/// Where a block stands. A stripe is `chunk` rows; its data chunks follow its parity round the
/// members.
#[tactic(auto, using(crate::proofs::PlaceLemmas::place_row_fits))]
pub fn place_of(g: &Geometry, block: u32) -> Place
    requires { block < volume g.now }
    ensures place { result ≡ block_place g.now block }
    ensures member { result.member < g.now.members }
    ensures row { result.row < g.now.rows }
{
    let members = u32::from(g.members);
    let chunk = u32::from(g.chunk);
    let number = block / chunk;
    let stripe = number / (members - 1);
    let before = number % (members - 1);
    let parity = members - 1 - stripe % members;
    Place {
        member: ((parity + 1 + before) % members) as u8,
        row: stripe * chunk + block % chunk,
    }
}

/// The member with the parity of a row: the last one in the first stripe, and one further to the
/// left in each next.
pub fn parity_of(g: &Geometry, row: u32) -> u8
    requires { row < g.now.rows }
    ensures parity { result ≡ parity_member g.now row }
    ensures member { result < g.now.members }
{
    let members = u32::from(g.members);
    let stripe = row / u32::from(g.chunk);
    (members - 1 - stripe % members) as u8
}

/// Whose a place is.
pub fn whose(g: &Geometry, member: u8, row: u32) -> Owner
    requires member { member < g.now.members }
    requires row { row < g.now.rows }
    ensures { result ≡ owner_of g.now member row }
{
    let parity = parity_of(g, row);
    if member == parity {
        return Owner::Parity;
    }
    let members = u32::from(g.members);
    let chunk = u32::from(g.chunk);
    let before = u32::from((member + g.members - (parity + 1)) % g.members);
    Owner::Block((row / chunk * (members - 1) + before) * chunk + row % chunk)
}
