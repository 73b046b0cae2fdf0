//! The users of the rehearsal.
ghost use Rattle.std.specs.Prelude.{◌≡◌, ◌↔◌, None, IsNone, IfSome, IsTrue, []};
ghost use Rattle.nmvs_identifier.specs.Name.{is_name};
ghost use Rattle.nmvs_rehearsal.specs.Roster.{post, post_of, Holds, IsRostered};

use nmvs_identifier::Name;
use nmvs_rules::{Actor, Role};

/// The capacity of a user of the rehearsal; `None` if the name is not one of its eight (own).
pub fn actor_of(user: &Name) -> Option<Actor>
    ensures unknown { IsNone result ↔ (post_of user.now.bytes ≡ None) }
    ensures known { IfSome result (IsRostered user.now) }
{
    match user.text() {
        "mah1" => Some(actor(Role::Holder, "MAH-1", "HQ")),
        "mah2" => Some(actor(Role::Holder, "MAH-2", "HQ2")),
        "ph1" | "ph1b" => Some(actor(Role::Pharmacy, "PH-1", "P1")),
        "ph2" => Some(actor(Role::Pharmacy, "PH-1", "P2")),
        "wh1" => Some(actor(Role::Wholesaler, "WH-1", "W1")),
        "mf1" => Some(actor(Role::Manufacturer, "MF-1", "F1")),
        "au1" => Some(actor(Role::Authority, "AU-1", "A1")),
        _ => None,
    }
}

fn actor(role: Role, authorisation: &str, premises: &str) -> Actor
    requires authorisation { IsTrue (is_name authorisation.now) }
    requires premises { IsTrue (is_name premises.now) }
    ensures { Holds (post [] role authorisation.now premises.now) result }
{
    Actor {
        role,
        authorisation: Name::read(authorisation).unwrap(),
        premises: Name::read(premises).unwrap(),
    }
}
