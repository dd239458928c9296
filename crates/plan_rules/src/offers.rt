//! How packages stand for names.

ghost use Rattle.std.specs.Prelude.{◌≡◌, ℕ, List, Option, ◌&&◌, map, find, not};
ghost use Rattle.std.specs.List.{list_any};
ghost use Rattle.std.specs.Option.{option_map};
ghost use Rattle.path_name.specs.Orders.{bytes_are_equal};
ghost use Rattle.plan_rules.specs.Offers.{shown, two_takers, is_met, is_taking, is_taking_beside, is_other_taker};

use manifest_read::{Link, Package};
use path_name::Name;

/// How a package stands for a name.
#[derive(Clone, Copy)]
pub enum Standing<'a> {
    /// The name is its own.
    Owns,
    /// It replaces the name, by this link.
    Replaces(&'a Link),
    /// It provides the name, by this link.
    Provides(&'a Link),
}

/// A package that stands for a name.
#[derive(Clone, Copy)]
pub struct Offer<'a> {
    /// The package's number in its list.
    pub number: u32,
    /// The package.
    pub party: &'a Package,
    /// How it stands for the name.
    pub standing: Standing<'a>,
}

impl<'a> Offer<'a> {
    /// Whether it meets a requirement on the name. Takes no memory.
    pub fn meets(&self, need: &Link) -> bool
        ensures { result ≡ is_met need.now (shown self.now) }
    {
        match self.standing {
            Standing::Owns => need.wants.satisfies(&self.party.version),
            Standing::Replaces(link) => need.wants.meets(&link.wants),
            Standing::Provides(link) => need.wants.meets(&link.wants),
        }
    }

    /// Whether it owns or replaces the name. Takes no memory.
    pub fn takes(&self) -> bool
        ensures { result ≡ is_taking (shown self.now) }
    {
        match self.standing {
            Standing::Owns => true,
            Standing::Replaces(_) => true,
            Standing::Provides(_) => false,
        }
    }
}

/// Whether one of them meets a requirement.
pub(crate) fn any_meets(offers: &[Offer<'_>], need: &Link) -> bool
    ensures { result ≡ list_any (λ offer. is_met need.now (shown offer)) offers.now }
{
    offers.iter().any(|offer| offer.meets(need))
}

/// The first that owns or replaces the name as wanted and is another package than this.
pub(crate) fn first_against<'a>(
    offers: &[Offer<'a>],
    from: &Name,
    link: &Link,
) -> Option<&'a Package>
    ensures { option_map (λ party. party.now) result ≡ option_map (λ offer. offer.party) (find (is_other_taker from.now link.now) (map shown offers.now)) }
{
    for offer in offers {
        if offer.takes() && offer.meets(link) && offer.party.name != *from {
            return Some(offer.party);
        }
    }
    None
}

/// The first that owns or replaces the name.
fn first_taker<'a>(offers: &[Offer<'a>]) -> Option<Offer<'a>>
    ensures { option_map shown result ≡ find is_taking (map shown offers.now) }
{
    for offer in offers {
        if offer.takes() {
            return Some(*offer);
        }
    }
    None
}

/// The first package of another number that owns or replaces the name.
fn taker_beside<'a>(offers: &[Offer<'a>], number: u32) -> Option<&'a Package>
    ensures { option_map (λ party. party.now) result ≡ option_map (λ offer. offer.party) (find (is_taking_beside number) (map shown offers.now)) }
{
    for offer in offers {
        if offer.takes() && offer.number != number {
            return Some(offer.party);
        }
    }
    None
}

/// The first two packages that own or replace the name.
pub(crate) fn two_takers<'a>(offers: &[Offer<'a>]) -> Option<(&'a Package, &'a Package)>
    ensures { option_map (λ both. (both.0.now, both.1.now)) result ≡ two_takers (map shown offers.now) }
{
    let first = first_taker(offers)?;
    let second = taker_beside(offers, first.number)?;
    Some((first.party, second))
}
