//! The units that a view's directories call for.
ghost use Rattle.std.specs.Prelude.{◌≡◌, ◌<◌, ◌^◌, ◌++◌, map, IfOk, OnOk};
ghost use Rattle.pdn_view.specs.declared.due.Due.TheVariants.{Plain};
ghost use Rattle.pdn_view.specs.Views.{counts_of, slices, all_slices, first_number, dues_of};

use crate::view::Party;
use pdn_base::{Memory, Site, Value};
use pdn_gmw::UnitView;
use pdn_site::SegDirs;
use std::alloc::Global;
use std::cmp::Ordering;

/// Which unit comes next in a view: a plain one of a site, a secure one, each of a value, the root, or the root's outputs.
#[derive(Clone, Copy, Debug, Drop)]
pub enum Due {
    Plain(Site, Value),
    Secure(Value),
    Root,
    Outputs,
}

/// How many words of each kind a unit has in a view.
#[derive(Clone, Copy, Debug, PartialEq, Eq)]
pub struct Counts {
    pub own: u64,
    pub other: u64,
    pub ands: u64,
    pub masks: u64,
}

/// The words that a site sees of a unit, counted.
pub(crate) fn counts_of(words: &UnitView) -> Counts
    ensures { result ≡ counts_of words.now }
{
    Counts {
        own: words.own.len() as u64,
        other: words.other.len() as u64,
        ands: words.gates.len() as u64,
        masks: words.masks.len() as u64,
    }
}

// Adds plain units of a site.
fn add_plain(dues: &mut Vec<Due>, site: Site, values: &[Value]) -> Result<(), Memory>
    ensures { OnOk result (dues.new.items ≡ dues.old.items ++ map (Plain site) values.now) }
{
    for value in values {
        dues.push(Due::Plain(site, *value))?;
    }
    Ok(())
}

// Adds the units of a segment with these directories.
fn add_slices(dues: &mut Vec<Due>, a: &[Value], b: &[Value]) -> Result<(), Memory>
    ensures { OnOk result (dues.new.items ≡ dues.old.items ++ slices a.now b.now) }
{
    let mut i = 0;
    let mut j = 0;
    while i < a.len() && j < b.len() {
        match a[i].cmp(&b[j]) {
            Ordering::Less => {
                dues.push(Due::Plain(Site::A, a[i]))?;
                i += 1;
            }
            Ordering::Equal => {
                dues.push(Due::Secure(a[i]))?;
                i += 1;
                j += 1;
            }
            Ordering::Greater => {
                dues.push(Due::Plain(Site::B, b[j]))?;
                j += 1;
            }
        }
    }
    add_plain(dues, Site::A, &a[i..])?;
    add_plain(dues, Site::B, &b[j..])?;
    Ok(())
}

/// The units of segments with these directories, in order.
fn all_slices(alloc: Global, dirs: &[SegDirs]) -> Result<Vec<Due>, Memory>
    ensures { IfOk result (λ dues. dues.items ≡ all_slices dirs.now) }
{
    let mut dues = Vec::new(alloc);
    for pair in dirs {
        add_slices(&mut dues, pair.a.as_slice(), pair.b.as_slice())?;
    }
    Ok(dues)
}

/// The number of a view's first unit: the broker's is the root.
pub(crate) fn first_number(alloc: Global, party: Party, dirs: &[SegDirs]) -> Result<u64, Memory>
    ensures is { IfOk result (λ number. number ≡ first_number party dirs.now) }
    ensures small { IfOk result (λ number. number < 2 ^ 63) }
{
    match party {
        Party::A | Party::B => Ok(0),
        Party::Broker => Ok(all_slices(alloc, dirs)?.len() as u64),
    }
}

/// The units that a view with these directories has.
pub(crate) fn dues_of(alloc: Global, party: Party, dirs: &[SegDirs]) -> Result<Vec<Due>, Memory>
    ensures { IfOk result (λ dues. dues.items ≡ dues_of party dirs.now) }
{
    if party == Party::Broker {
        return Ok(vec![in alloc; Due::Outputs]?);
    }
    let mut dues = all_slices(alloc, dirs)?;
    dues.push(Due::Root)?;
    Ok(dues)
}
