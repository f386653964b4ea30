// What is held of each clock, so that its follows and its chain are found at once.
ghost use Rattle.std.specs.Prelude.{◌≡◌, ◌≢◌, ◌<◌, ◌^◌, None, length, slice_set};
ghost use Rattle.problem_model.specs.Problem.{ProblemLists, IsProblem};
ghost use Rattle.problem_model.specs.ChainNumbers.{with_follow};
ghost use Rattle.problem.specs.Inside.{AreLinks, AreChainCounts, AreMerged, LeadInOrder, chain_size, link_at, renumbered};
ghost use Rattle.problem.specs.Growing.{IsNewFollow};

use problem_model::Follow;

/// What is held of a clock.
#[derive(Clone, Copy)]
pub struct Link {
    /// The follow whose later clock this is.
    pub before: Option<Follow>,
    /// The follow whose earlier clock this is.
    pub after: Option<Follow>,
    /// The number of its chain: the place of one of the clocks there.
    pub number: u32,
    /// How many clocks the chain has whose number is this clock's place, where there is one.
    pub size: u32,
}

// Gives a clock the number, and answers the follow that leads on from it.
fn step_onward(links: &mut [Link], clock: u32, number: u32) -> Option<Follow>
    requires { clock < length links.old }
    ensures links { links.new ≡ slice_set links.old clock (record (link_at links.old clock) { number = number }) }
    ensures after { result ≡ (link_at links.old clock).after }
{
    let link = &mut links[clock as usize];
    link.number = number;
    link.after
}

// Gives a clock the number, and answers the follow that leads to it.
fn step_back(links: &mut [Link], clock: u32, number: u32) -> Option<Follow>
    requires { clock < length links.old }
    ensures links { links.new ≡ slice_set links.old clock (record (link_at links.old clock) { number = number }) }
    ensures before { result ≡ (link_at links.old clock).before }
{
    let link = &mut links[clock as usize];
    link.number = number;
    link.before
}

// Gives the clocks of a chain the number, from the first of them on.
fn renumber_onward(links: &mut [Link], first: u32, number: u32)
    requires inside { first < length links.old }
    requires first { (link_at links.old first).before ≡ None }
    requires order { LeadInOrder links.old }
    ensures { links.new ≡ renumbered links.old (link_at links.old first).number number }
{
    let mut clock = first;
    while let Some(follow) = step_onward(links, clock, number) {
        clock = follow.later;
    }
}

// Gives the clocks of a chain the number, from the last of them back.
fn renumber_back(links: &mut [Link], last: u32, number: u32)
    requires inside { last < length links.old }
    requires last { (link_at links.old last).after ≡ None }
    requires order { LeadInOrder links.old }
    ensures { links.new ≡ renumbered links.old (link_at links.old last).number number }
{
    let mut clock = last;
    while let Some(follow) = step_back(links, clock, number) {
        clock = follow.earlier;
    }
}

// How many clocks there are in the chain of a clock.
fn size_of(links: &[Link], clock: u32) -> u32
    requires inside { clock < length links.now }
    requires counted { AreChainCounts links.now }
    ensures { result ≡ chain_size links.now (link_at links.now clock).number }
{
    let number = links[clock as usize].number;
    links[number as usize].size
}

// Gives the clocks of two chains one number, that of the longer chain, and counts them there. The last clock of the one
// chain and the first clock of the other tell which they are. It takes one step for each clock of the shorter chain.
fn merge(links: &mut [Link], last: u32, first: u32)
    requires few { length links.old < 2 ^ 32 }
    requires inside { (last < length links.old) × (first < length links.old) }
    requires last { (link_at links.old last).after ≡ None }
    requires first { (link_at links.old first).before ≡ None }
    requires apart { (link_at links.old last).number ≢ (link_at links.old first).number }
    requires order { LeadInOrder links.old }
    requires counted { AreChainCounts links.old }
    ensures { AreMerged links.old links.new (link_at links.old last).number (link_at links.old first).number }
{
    let ahead = size_of(links, last);
    let behind = size_of(links, first);
    if ahead < behind {
        let later = links[first as usize].number;
        renumber_back(links, last, later);
        links[later as usize].size = ahead + behind;
    } else {
        let earlier = links[last as usize].number;
        renumber_onward(links, first, earlier);
        links[earlier as usize].size = ahead + behind;
    }
}

/// Takes a new follow in: both of its clocks know it, and the clocks of the shorter one of their two chains get the
/// number of the longer one.
pub fn join(links: &mut [Link], f: &Follow)
    requires { (p : ProblemLists) × IsProblem p × AreLinks p links.old × IsNewFollow p f.now }
    ensures { (p : ProblemLists) → IsProblem p → AreLinks p links.old → IsNewFollow p f.now → AreLinks (with_follow p f.now) links.new }
{
    merge(links, f.earlier, f.later);
    links[f.earlier as usize].after = Some(*f);
    links[f.later as usize].before = Some(*f);
}
