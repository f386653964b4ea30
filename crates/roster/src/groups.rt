// Lists of several groups.
ghost use Rattle.std.specs.Prelude.{◌≡◌, ◌<◌, ◌≤◌, ◌+◌, ◌^◌, ◌++◌, [], replicate, take, length, slice_get, slice_set, Some, OnOk, OnErr, IfOk};
ghost use Rattle.roster.specs.Groups.{total, sizes_of, lists_of, group_at, with_tail, IsPlaceOf};

use crate::sums::Sums;
use std::alloc::{AllocError, Global};
use std::marker::Model;

/// Lists of several groups, which stand one behind the other: an element is found by its place among all of them, in a
/// time that grows with the logarithm of the number of groups. A change of one group takes no more beside its own elements.
#[derive(Drop)]
pub struct Groups<T> {
    lists: Vec<Vec<T>>,
    // How many elements each group has.
    sizes: Sums,
}

impl<T> Model for Groups<T> {
    ghost use Rattle.std.specs.Prelude.{◌≡◌, List};
    ghost use Rattle.roster.specs.Groups.{sizes_of, lists_of};

    ghost Value = { List (List T) };

    ghost view = { λ g. lists_of g.lists.items };

    ghost invariant = { λ g. g.sizes ≡ sizes_of (lists_of g.lists.items) };
}

// So many empty lists.
fn empty_lists<T: Copy>(alloc: Global, count: usize) -> Result<Vec<Vec<T>>, AllocError>
    ensures { IfOk result (λ lists. lists_of lists.items ≡ replicate count []) }
{
    let mut lists = Vec::new(alloc);
    for _ in 0..count {
        lists.push(Vec::new(alloc))?;
    }
    Ok(lists)
}

// Puts elements in the place of those from one on.
fn put_behind<T: Copy>(list: &mut Vec<T>, from: usize, tail: &[T]) -> Result<(), AllocError>
    ensures ok { OnOk result (list.new.items ≡ take from list.old.items ++ tail.now) }
    ensures err { OnErr result (list.new.items ≡ list.old.items) }
{
    list.reserve(tail.len())?;
    list.truncate(from);
    list.extend_from_slice(tail).unwrap();
    Ok(())
}

// Writes one element.
fn write<T: Copy>(list: &mut Vec<T>, k: usize, element: T)
    requires { k < length list.old.items }
    ensures { list.new.items ≡ slice_set list.old.items k element }
{
    list[k] = element;
}

impl<T: Copy> Groups<T> {
    /// So many empty groups, at most 65,536.
    pub fn new(alloc: Global, groups: usize) -> Result<Groups<T>, AllocError>
        requires { groups ≤ 65536 }
        ensures { IfOk result (λ g. g ≡ replicate groups []) }
    {
        let lists = empty_lists(alloc, groups)?;
        let sizes = Sums::new(alloc, groups)?;
        Ok(Groups { lists, sizes })
    }

    /// How many elements there are.
    pub fn total(&self) -> u32
        ensures { result ≡ total (sizes_of self.now) }
    {
        self.sizes.total()
    }

    /// The elements of a group.
    pub fn group(&self, g: u32) -> &[T]
        requires { g < length self.now }
        ensures { slice_get self.now g ≡ Some result.now }
    {
        &self.lists[g as usize]
    }

    /// The group that the element at a place among all is in, and its place there.
    pub fn find(&self, place: u32) -> (u32, u32)
        requires { place < total (sizes_of self.now) }
        ensures { IsPlaceOf (sizes_of self.now) place result.0 result.1 }
    {
        self.sizes.find(place)
    }

    /// Puts elements in the place of those of a group from one on. All stays as it was where memory runs out.
    pub fn put_tail(&mut self, g: u32, from: usize, tail: &[T]) -> Result<(), AllocError>
        requires group { g < length self.old }
        requires few { total (sizes_of self.old) + length tail.now < 2 ^ 32 }
        ensures ok { OnOk result (self.new ≡ with_tail self.old g from tail.now) }
        ensures err { OnErr result (self.new ≡ self.old) }
    {
        put_behind(&mut self.lists[g as usize], from, tail)?;
        self.sizes.set(g, self.lists[g as usize].len() as u32);
        Ok(())
    }

    /// Takes away the elements of a group from one on.
    pub fn cut(&mut self, g: u32, from: usize)
        requires group { g < length self.old }
        requires few { total (sizes_of self.old) < 2 ^ 32 }
        ensures { self.new ≡ slice_set self.old g (take from (group_at self.old g)) }
    {
        self.lists[g as usize].truncate(from);
        self.sizes.set(g, self.lists[g as usize].len() as u32);
    }

    /// Writes one element of a group anew.
    pub fn set(&mut self, g: u32, k: usize, element: T)
        requires group { g < length self.old }
        requires within { k < length (group_at self.old g) }
        ensures { self.new ≡ slice_set self.old g (slice_set (group_at self.old g) k element) }
    {
        write(&mut self.lists[g as usize], k, element);
    }
}
