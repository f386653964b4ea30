// The declaration of a trial.
ghost use Rattle.std.specs.Prelude.{◌≡◌, ◌++◌, ◌<◌, IfOk, OnOk, string_bytes};
ghost use Rattle.std.specs.List.{flat_map};
ghost use Rattle.trial.specs.Rounds.{hosts};
ghost use Rattle.trial.specs.Declaration.{drift, host_text, label_text, link_text, links_text, declaration_text};

use crate::rounds::HOSTS;
use std::alloc::{AllocError, Global};
use std::fmt::Write;

/// The text of the declaration.
pub fn declare(alloc: Global) -> Result<String, AllocError>
    ensures { IfOk result (λ text. string_bytes text ≡ declaration_text) }
{
    let mut text = String::new(alloc);
    text.push_str("source = \"h0\"\n")?;
    push_hosts(&mut text)?;
    push_labels(&mut text)?;
    push_links(&mut text)?;
    Ok(text)
}

fn push_hosts(text: &mut String) -> Result<(), AllocError>
    ensures { OnOk result (string_bytes text.new ≡ string_bytes text.old ++ flat_map host_text hosts) }
{
    for host in 0..HOSTS {
        push_host(text, host)?;
    }
    Ok(())
}

fn push_host(text: &mut String, host: u32) -> Result<(), AllocError>
    ensures { OnOk result (string_bytes text.new ≡ string_bytes text.old ++ host_text host) }
{
    let drift = drift_of(host);
    write!(
        text,
        "[hosts.h{host}]\nshort = {drift}\nlong = {drift}\nearly = 0\nlate = 50\n"
    )
}

// How many parts per billion a clock may be short or long. The first one shows true time.
fn drift_of(host: u32) -> u32
    ensures { result ≡ drift host }
{
    if host == 0 { 0 } else { 20_000 }
}

fn push_labels(text: &mut String) -> Result<(), AllocError>
    ensures { OnOk result (string_bytes text.new ≡ string_bytes text.old ++ flat_map label_text hosts) }
{
    for host in 0..HOSTS {
        push_label(text, host)?;
    }
    Ok(())
}

fn push_label(text: &mut String, host: u32) -> Result<(), AllocError>
    ensures { OnOk result (string_bytes text.new ≡ string_bytes text.old ++ label_text host) }
{
    write!(
        text,
        "[labels.h{host}]\nhost = \"h{host}\"\nkind = \"log\"\n"
    )
}

fn push_links(text: &mut String) -> Result<(), AllocError>
    ensures { OnOk result (string_bytes text.new ≡ string_bytes text.old ++ flat_map links_text hosts) }
{
    for from in 0..HOSTS {
        push_links_from(text, from)?;
    }
    Ok(())
}

fn push_links_from(text: &mut String, from: u32) -> Result<(), AllocError>
    ensures { OnOk result (string_bytes text.new ≡ string_bytes text.old ++ links_text from) }
{
    for to in 0..HOSTS {
        push_link(text, from, to)?;
    }
    Ok(())
}

// No host has a link to itself.
fn push_link(text: &mut String, from: u32, to: u32) -> Result<(), AllocError>
    ensures { OnOk result (string_bytes text.new ≡ string_bytes text.old ++ link_text from to) }
{
    if from == to {
        return Ok(());
    }
    write!(
        text,
        "[[links]]\nfrom = \"h{from}\"\nto = \"h{to}\"\nleast = 1000\nmost = 100000\n"
    )
}
