//! Two worlds, and what a query's run in both gives.
use pdn_base::Site;
use pdn_broker::Prepared;
use pdn_view::View;
use std::marker::Model;

/// Two worlds of one query, and a site.
#[derive(Drop)]
pub struct Worlds {
    pub site: Site,
    pub first: Prepared,
    pub second: Prepared,
}

/// A unit for which a section was dealt, and the places of the section whose words the change from the first world to the second
/// alters, ascending.
#[derive(Debug, Drop)]
pub struct Change {
    pub unit: u64,
    pub places: Vec<u64>,
}

impl Model for Change {
    ghost use Rattle.pdn_twin.specs.Twins.{ChangeWords};

    ghost Value = { ChangeWords };

    ghost view = { λ c. record { unit = c.unit; places = c.places.items } };
}

/// The site's views of a query in both worlds, and where the sections change, in unit order.
#[derive(Debug, Drop)]
pub struct Twin {
    pub first: View,
    pub second: View,
    pub changed: Vec<Change>,
}

impl Model for Twin {
    ghost use Rattle.pdn_twin.specs.Twins.{TwinWords};

    ghost Value = { TwinWords };

    ghost view = { λ t. record { first = t.first; second = t.second; changed = t.changed.items } };
}
