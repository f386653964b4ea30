use decl::{Decl, Link, TraceKind, read_decl};
use problem_model::Clock;
use std::alloc::Global;
use trial::generate;

// The declaration is lawful, and says what it is to say of eight hosts.
#[test]
fn the_declaration_is_read(rt: HostRuntime) {
    assert!(rt; declaration_read(rt.alloc()));
}

fn declaration_read(alloc: Global) -> bool {
    match generate(alloc, 7) {
        Ok(trial) => text_read(alloc, &trial.declaration),
        Err(_) => false,
    }
}

fn text_read(alloc: Global, text: &[u8]) -> bool {
    match read_decl(alloc, text) {
        Ok(decl) => says_eight_hosts(&decl),
        Err(_) => false,
    }
}

fn says_eight_hosts(decl: &Decl) -> bool {
    decl.source == Some(0)
        && decl.payload_bytes == 0
        && decl.addresses.list().is_empty()
        && clocks_right(&decl.clocks)
        && logs_right(decl)
        && links_right(decl)
        && decl.hosts.len() == 8
        && decl.labels.len() == 8
        && decl.links.list().len() == 56
}

// Whether each clock has the name, the drift and the errors of its host. The first one is true.
fn clocks_right(clocks: &[Clock]) -> bool {
    for (host, clock) in clocks.iter().enumerate() {
        if !clock_right(host, clock) {
            return false;
        }
    }
    true
}

const NAMES: [&str; 8] = ["h0", "h1", "h2", "h3", "h4", "h5", "h6", "h7"];

fn clock_right(host: usize, clock: &Clock) -> bool {
    let drift = if host == 0 { 0 } else { 20_000 };
    let named = match NAMES.get(host) {
        Some(name) => clock.name.bytes() == name.as_bytes(),
        None => false,
    };
    named
        && clock.rate.short() == drift
        && clock.rate.long() == drift
        && clock.early.get() == 0
        && clock.late.get() == 50
}

// Whether each label is a log of the host at its place.
fn logs_right(decl: &Decl) -> bool {
    for (place, label) in decl.labels.iter().enumerate() {
        if label.host as usize != place || label.kind != TraceKind::Log {
            return false;
        }
    }
    true
}

// Whether each link is between two hosts, with the delays of all.
fn links_right(decl: &Decl) -> bool {
    for link in decl.links.list().iter() {
        if !link_right(link) {
            return false;
        }
    }
    true
}

fn link_right(link: &Link) -> bool {
    let most = match link.most {
        Some(most) => most.get(),
        None => 0,
    };
    link.from != link.to && link.least.get() == 1000 && most == 100_000
}
