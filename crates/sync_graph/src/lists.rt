// A list of arc numbers for each node, all in one table.
ghost use Rattle.std.specs.Prelude.{◌≡◌, ℕ, ◌-◌, ◌<◌, ◌++◌, ◌∷◌, [], length, take, slice_get, slice_set, slice_index_or, OnOk, OnErr, IfOk};
ghost use Rattle.std.specs.List.{swap_remove};
ghost use Rattle.problem_model.specs.Limits.{most_arcs};
ghost use Rattle.sync_graph.specs.Layout.{LiesWithin, HasPlaceForOne};
ghost use Rattle.sync_graph.specs.Lists.{list_at, entry_at};

use std::alloc::{AllocError, Global};
use std::marker::Model;

// The room of a list when its first entry comes. Most nodes have two or three arcs on each side.
const FIRST_ROOM: u32 = 3;

/// Where a list stands in the table: its entries from `start` on, and behind them free places, `room` places in all.
#[derive(Clone, Copy)]
struct Span {
    start: usize,
    len: u32,
    room: u32,
}

/// The lists of all nodes. They stand in one table, each in a room of its own, so that no list takes memory by itself
/// and each entry is found at once. A list that fills its room moves to the table's end, into one of twice the size;
/// the places where it stood are used no more.
#[derive(Drop)]
pub struct Lists {
    spans: Vec<Span>,
    table: Vec<u32>,
}

impl Model for Lists {
    ghost use Rattle.std.specs.Prelude.{List, ℕ, map};
    ghost use Rattle.sync_graph.specs.Layout.{IsLaidOut, entries_of};

    ghost Value = { List (List ℕ) };

    ghost view = { λ s. map (entries_of s.table.items) s.spans.items };

    ghost invariant = { λ s. IsLaidOut s.spans.items s.table.items };
}

// A full list at the table's end, in a greater room.
fn moved(table: &mut Vec<u32>, span: Span) -> Result<Span, AllocError>
    requires within { LiesWithin table.old.items span }
    requires full { span.len ≡ span.room }
    requires few { span.len < most_arcs }
    ensures ok { IfOk result (λ s. HasPlaceForOne table.old.items span table.new.items s) }
    ensures err { OnErr result (table.new.items ≡ table.old.items) }
{
    let start = table.len();
    let room = if span.room == 0 {
        FIRST_ROOM
    } else {
        span.room * 2
    };
    table.reserve(room as usize)?;
    let end = span.start + span.len as usize;
    table.extend_from_within(span.start..end).unwrap();
    table.resize(start + room as usize, 0).unwrap();
    Ok(Span {
        start,
        len: span.len,
        room,
    })
}

// A list that has a place left.
fn roomy(table: &mut Vec<u32>, span: Span) -> Result<Span, AllocError>
    requires within { LiesWithin table.old.items span }
    requires few { span.len < most_arcs }
    ensures ok { IfOk result (λ s. HasPlaceForOne table.old.items span table.new.items s) }
    ensures err { OnErr result (table.new.items ≡ table.old.items) }
{
    if span.len < span.room {
        return Ok(span);
    }
    moved(table, span)
}

// The place of an entry that is there.
fn place_of(list: &[u32], entry: u32) -> usize
    requires { (k : ℕ) × (k < length list.now) × (slice_index_or list.now k 0 ≡ entry) }
    ensures within { result < length list.now }
    ensures place { slice_index_or list.now result 0 ≡ entry }
{
    let mut k = 0;
    while list[k] != entry {
        k += 1;
    }
    k
}

impl Lists {
    /// No lists. It takes no memory.
    pub fn new(alloc: Global) -> Lists
        ensures { result ≡ [] }
    {
        Lists {
            spans: Vec::new(alloc),
            table: Vec::new(alloc),
        }
    }

    /// How many lists there are.
    pub fn len(&self) -> usize
        ensures { result ≡ length self.now }
    {
        self.spans.len()
    }

    /// Appends an empty list.
    pub fn grow(&mut self) -> Result<(), AllocError>
        ensures ok { OnOk result (self.new ≡ self.old ++ [] ∷ []) }
        ensures err { OnErr result (self.new ≡ self.old) }
    {
        let empty = Span {
            start: 0,
            len: 0,
            room: 0,
        };
        match self.spans.push(empty) {
            Ok(()) => Ok(()),
            Err(_) => Err(AllocError),
        }
    }

    /// Takes the last list away.
    pub fn shrink(&mut self)
        ensures { self.new ≡ take (length self.old - 1) self.old }
    {
        let _ = self.spans.pop();
    }

    /// Appends an entry to the list of a node.
    pub fn push_to(&mut self, node: u32, entry: u32) -> Result<(), AllocError>
        requires node { node < length self.old }
        requires few { length (list_at self.old node) < most_arcs }
        ensures ok { OnOk result (self.new ≡ slice_set self.old node (list_at self.old node ++ entry ∷ [])) }
        ensures err { OnErr result (self.new ≡ self.old) }
    {
        let span = roomy(&mut self.table, self.spans[node as usize])?;
        self.table[span.start + span.len as usize] = entry;
        self.spans[node as usize] = Span {
            len: span.len + 1,
            ..span
        };
        Ok(())
    }

    /// Takes the last entry of a node's list away.
    pub fn pop_from(&mut self, node: u32)
        requires node { node < length self.old }
        requires some { 0 < length (list_at self.old node) }
        ensures { self.new ≡ slice_set self.old node (take (length (list_at self.old node) - 1) (list_at self.old node)) }
    {
        let span = self.spans[node as usize];
        self.spans[node as usize] = Span {
            len: span.len - 1,
            ..span
        };
    }

    /// Takes an entry out of a node's list. The last one of the list takes its place.
    pub fn remove(&mut self, node: u32, entry: u32)
        requires node { node < length self.old }
        requires there { (k : ℕ) × (k < length (list_at self.old node)) × (entry_at self.old node k ≡ entry) }
        ensures { (k : ℕ) × (k < length (list_at self.old node)) × (entry_at self.old node k ≡ entry)
            × (self.new ≡ slice_set self.old node (swap_remove (list_at self.old node) k 0)) }
    {
        let span = self.spans[node as usize];
        let end = span.start + span.len as usize;
        let place = span.start + place_of(&self.table[span.start..end], entry);
        self.table[place] = self.table[end - 1];
        self.spans[node as usize] = Span {
            len: span.len - 1,
            ..span
        };
    }

    /// The entry at place `k` of a node's list, from 0 on; None where there is none.
    pub fn entry(&self, node: u32, k: u32) -> Option<u32>
        requires { node < length self.now }
        ensures { result ≡ slice_get (list_at self.now node) k }
    {
        let span = self.spans[node as usize];
        if k < span.len {
            Some(self.table[span.start + k as usize])
        } else {
            None
        }
    }
}
