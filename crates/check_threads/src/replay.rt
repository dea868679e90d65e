//! Whether calls that were made beside each other are those of one plain map.
use smc_model::{Event, Model, Reply};
use smc_words::NoMemory;
use std::alloc::Global;

/// A call, by the event that its answer is: it began behind the one moment, and had ended by the other.
#[derive(Drop)]
pub struct Made {
    pub from: u64,
    pub until: u64,
    pub event: Event,
}

/// What one thread did, in order, of which the front has been replayed.
#[derive(Drop)]
struct Track<'a> {
    made: &'a [Made],
    next: usize,
}

impl<'a> Track<'a> {
    /// What is left of it.
    fn rest(&self) -> &'a [Made] {
        self.made.get(self.next..).unwrap_or(&[])
    }
}

/// Whether no thread has a call left that had ended when this one began.
fn is_next(tracks: &[Track<'_>], made: &Made) -> bool {
    for track in tracks {
        if let Some(head) = track.rest().first() {
            if head.until < made.from {
                return false;
            }
        }
    }
    true
}

/// Whether an event says something that is so no longer once the other has happened.
fn ends_with(event: &Event, other: &Event) -> bool {
    match (event, other) {
        (
            Event::Read { number, value, .. },
            Event::Write {
                number: written,
                value: put,
                ..
            },
        ) => number == written && value != put,
        (
            Event::Look { number, here: true },
            Event::Remove {
                number: removed,
                first: true,
            },
        ) => number == removed,
        _ => false,
    }
}

/// Whether a call of another thread that overlaps this one says what is so now, and not behind it. Such a call is first.
fn is_preceded(model: &mut Model, track: &Track<'_>, made: &Made) -> Result<bool, NoMemory> {
    for other in track.rest() {
        if other.from > made.until {
            return Ok(false);
        }
        if ends_with(&other.event, &made.event) && model.apply(&other.event)? == Reply::Fits {
            return Ok(true);
        }
    }
    Ok(false)
}

/// Replays the next call of some thread. Answers whether there was one that fits.
fn replay_one(model: &mut Model, tracks: &mut [Track<'_>]) -> Result<bool, NoMemory> {
    for k in 0..tracks.len() {
        let Some(track) = tracks.get(k) else {
            continue;
        };
        let Some(made) = track.rest().first() else {
            continue;
        };
        if !is_next(tracks, made) {
            continue;
        }
        let mut first = true;
        for track in tracks.iter() {
            first = first && !is_preceded(model, track, made)?;
        }
        if first && model.apply(&made.event)? == Reply::Fits {
            if let Some(track) = tracks.get_mut(k) {
                track.next = track.next.wrapping_add(1);
            }
            return Ok(true);
        }
    }
    Ok(false)
}

/// Whether the calls of these threads have an order in which their answers are those of a plain map, which is empty at first, and
/// no call comes behind one that began when it had ended. Each field is written by one thread, and with another word each time.
pub fn fit(alloc: Global, threads: &[Vec<Made>]) -> Result<bool, NoMemory> {
    let mut model = Model::new(alloc);
    let mut tracks = Vec::new(alloc);
    let mut many = 0usize;
    for made in threads {
        many = many.saturating_add(made.len());
        tracks.push(Track {
            made: made.as_slice(),
            next: 0,
        })?;
    }
    for _ in 0..many {
        if !replay_one(&mut model, tracks.as_mut_slice())? {
            return Ok(false);
        }
    }
    Ok(true)
}

/// An answer that can be falsified.
#[derive(Clone, Copy)]
pub enum Answer {
    /// The first word that a thread read.
    Word,
    /// That its first removal was the first.
    First,
}

/// Falsifies that answer of a thread, or puts it right again. Answers whether there is one.
fn turn(thread: &mut [Made], answer: Answer) -> bool {
    for made in thread {
        match (answer, &mut made.event) {
            (Answer::Word, Event::Read { value, .. }) => {
                *value ^= 1 << 40;
                return true;
            }
            (Answer::First, Event::Remove { first, .. }) => {
                *first = !*first;
                return true;
            }
            _ => {}
        }
    }
    false
}

/// Whether the calls fit no longer once that answer of the first thread is falsified. It is put right again.
pub fn is_needed(
    alloc: Global,
    threads: &mut [Vec<Made>],
    answer: Answer,
) -> Result<bool, NoMemory> {
    if let Some(thread) = threads.first_mut() {
        if !turn(thread.as_mut_slice(), answer) {
            return Ok(false);
        }
    }
    let fits = fit(alloc, threads)?;
    if let Some(thread) = threads.first_mut() {
        turn(thread.as_mut_slice(), answer);
    }
    Ok(!fits)
}
