// When the groups of events begin. The events of one message and one window are a series.
ghost use Rattle.std.specs.Prelude.{◌≡◌, ◌<◌, ◌≤◌, length, slice_get, option_map, Some, All, OnOk, IfOk};
ghost use Rattle.problem_model.specs.Limits.{most_items};
ghost use Rattle.traces.specs.Seen.{key_of, seen_moment};
ghost use Rattle.msg_match.specs.Held.{seen_item, seen_items};
ghost use Rattle.msg_match.specs.Series.{AreBeginnings, AreBegun, AreStops, HaveOwnPlaces, IsStop, begin_at, begin_behind, moment_or_none, timeless, with_series};

use crate::Item;
use crate::keys::Keys;
use crate::tables::key_at;
use std::alloc::{AllocError, Global};
use traces::{Key, Moment};

/// An event in its series.
#[derive(Clone, Copy)]
pub(crate) struct Stop {
    /// The number of the series.
    pub(crate) series: u32,
    /// When it happened, in ns; 0 where its key has no moment.
    pub(crate) time: i64,
    /// How far apart neighbours of one group lie at most, in ns; 0 where its key has no moment.
    pub(crate) window: u64,
    /// Which of all events it is.
    pub(crate) place: u32,
}

// The number of a series, which is appended where it is not there; an error where memory runs out.
fn series_number(series: &mut Keys, key: Key) -> Result<u32, AllocError>
    requires { length series.old ≤ most_items }
    ensures number { IfOk result (λ number. slice_get series.new number ≡ Some (key_of key)) }
    ensures series { OnOk result (series.new ≡ with_series series.old (key_of key)) }
{
    match series.place(&key) {
        Some(place) => Ok(place as u32),
        None => {
            let place = series.len();
            series.push(key)?;
            Ok(place as u32)
        }
    }
}

// The moment of a key, or the time 0 and no window.
fn moment_or_none(key: &Key) -> Moment
    ensures { seen_moment result ≡ moment_or_none (option_map seen_moment key.now.moment) }
{
    match key.moment {
        None => Moment { time: 0, window: 0 },
        Some(moment) => moment,
    }
}

// How an event stands in its series, which is appended where it is not there; an error where memory runs out.
fn stop_of(series: &mut Keys, item: &Item, place: u32) -> Result<Stop, AllocError>
    requires { length series.old ≤ most_items }
    ensures stop { IfOk result (λ stop. IsStop series.new (seen_item item.now) place stop) }
    ensures series { OnOk result (series.new ≡ with_series series.old (timeless (key_of item.now.key))) }
{
    let number = series_number(series, key_at(&item.key, 0)?)?;
    let moment = moment_or_none(&item.key);
    Ok(Stop {
        series: number,
        time: moment.time,
        window: moment.window,
        place,
    })
}

// How events stand in their series, in the order in which they came; an error where memory runs out.
fn stops_of(alloc: Global, items: &[Item]) -> Result<Vec<Stop>, AllocError>
    requires { length items.now ≤ most_items }
    ensures { IfOk result (λ stops. AreStops (seen_items items.now) stops.items) }
{
    let mut series = Keys::new(alloc);
    let mut stops = Vec::new(alloc);
    for (place, item) in items.iter().enumerate() {
        let stop = stop_of(&mut series, item, place as u32)?;
        stops.push(stop)?;
    }
    Ok(stops)
}

// When the group of an event begins that stands behind another one, whose group begins then.
fn begin_behind(last: &Stop, begin: i64, stop: &Stop) -> i64
    ensures { result ≡ begin_behind last.now begin stop.now }
{
    if last.series == stop.series && stop.time.abs_diff(last.time) <= stop.window {
        begin
    } else {
        stop.time
    }
}

// When the group of the event at `k` begins, by when those before it do.
fn begin_at(stops: &[Stop], begins: &[i64], k: usize) -> i64
    requires inside { k < length stops.now }
    requires places { All (λ stop. stop.place < length begins.now) stops.now }
    ensures { result ≡ begin_at stops.now begins.now k }
{
    if k == 0 {
        return stops[0].time;
    }
    let last = &stops[k - 1];
    begin_behind(last, begins[last.place as usize], &stops[k])
}

// When the groups of events begin, each at the place of its event; an error where memory runs out.
fn begins_of(alloc: Global, stops: &[Stop]) -> Result<Vec<i64>, AllocError>
    requires { HaveOwnPlaces stops.now }
    ensures begun { IfOk result (λ begins. AreBegun (length stops.now) stops.now begins.items) }
    ensures many { IfOk result (λ begins. length begins.items ≡ length stops.now) }
{
    let mut begins = Vec::new(alloc);
    begins.resize(stops.len(), 0)?;
    for k in 0..stops.len() {
        let begin = begin_at(stops, &begins, k);
        begins[stops[k].place as usize] = begin;
    }
    Ok(begins)
}

/// When the group of each event begins, in ns, in the order in which the events came; an error where memory runs out.
/// It takes one sort by series and time, and then each event goes on the group of its neighbour before it or begins
/// one.
pub(crate) fn beginnings(alloc: Global, items: &[Item]) -> Result<Vec<i64>, AllocError>
    requires { length items.now ≤ most_items }
    ensures { IfOk result (λ begins. AreBeginnings (seen_items items.now) begins.items) }
{
    let mut stops = stops_of(alloc, items)?;
    stops.sort_unstable_by_key(|stop| (stop.series, stop.time));
    begins_of(alloc, &stops)
}
