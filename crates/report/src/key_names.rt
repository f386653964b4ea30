// The ambiguous keys, with the names of their events.
ghost use Rattle.std.specs.Prelude.{◌≡◌, map, All, IfOk};
ghost use Rattle.decl.specs.Declaration.{HasLawfulLabels, declaration_of};
ghost use Rattle.traces.specs.Traces.{name_of};
ghost use Rattle.report.specs.Report.{HasAsciiKey, reported_key};
ghost use Rattle.report.specs.Reports.{named_key};
ghost use Rattle.report.specs.Inside.{AreLabelled, HasLabels, seen_ambiguous};

use crate::NamedGroup;
use crate::ambiguous::Ambiguous;
use crate::texts::key_text;
use decl::Decl;
use problem_model::Name;
use std::alloc::{AllocError, Global};
use traces::{EventId, name_of};

// The names of these events; an error where memory runs out.
fn names_of(alloc: Global, decl: &Decl, ids: &[EventId]) -> Result<Vec<Name>, AllocError>
    requires lawful { HasLawfulLabels (declaration_of decl.now) }
    requires labels { AreLabelled (declaration_of decl.now) ids.now }
    ensures { IfOk result (λ names. names.items ≡ map (name_of (declaration_of decl.now)) ids.now) }
{
    let mut names = Vec::with_capacity(alloc, ids.len())?;
    for id in ids {
        names.push(name_of(decl, *id))?;
    }
    Ok(names)
}

// A key by its text, with the names of its events; an error where memory runs out.
fn named(alloc: Global, decl: &Decl, key: &Ambiguous<'_>) -> Result<NamedGroup, AllocError>
    requires lawful { HasLawfulLabels (declaration_of decl.now) }
    requires labels { HasLabels (declaration_of decl.now) (seen_ambiguous key.now) }
    ensures named { IfOk result (λ g. reported_key g ≡ named_key (declaration_of decl.now) (seen_ambiguous key.now)) }
    ensures ascii { IfOk result HasAsciiKey }
{
    Ok(NamedGroup {
        key: key_text(alloc, &key.key.message)?,
        sends: names_of(alloc, decl, &key.sends)?,
        receives: names_of(alloc, decl, &key.receives)?,
    })
}

/// These keys in their order, each by its text and with the names of its events; an error where memory runs out.
pub(crate) fn named_keys(
    alloc: Global,
    decl: &Decl,
    keys: &[Ambiguous<'_>],
) -> Result<Vec<NamedGroup>, AllocError>
    requires lawful { HasLawfulLabels (declaration_of decl.now) }
    requires labels { All (HasLabels (declaration_of decl.now)) (map seen_ambiguous keys.now) }
    ensures named { IfOk result (λ gs. map reported_key gs.items ≡ map (named_key (declaration_of decl.now)) (map seen_ambiguous keys.now)) }
    ensures ascii { IfOk result (λ gs. All HasAsciiKey gs.items) }
{
    let mut groups = Vec::with_capacity(alloc, keys.len())?;
    for key in keys {
        groups.push(named(alloc, decl, key)?)?;
    }
    Ok(groups)
}
