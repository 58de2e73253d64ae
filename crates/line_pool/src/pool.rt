//! A pool of frames.

ghost use Rattle.std.specs.Prelude.{ℕ, ◌≡◌, ◌⊎◌, ◌↔◌, ◌+◌, ◌<◌, ◌≤◌, true, false, length, slice_index, slice_set, IfOk, IfSome, IfNone, IsNone};
ghost use Rattle.line_pool.specs.Pools.{Pool, all_free, IsOut, IsFree, AllOut, count_out, words_of, with_out, with_words};
ghost use Rattle.line_pool.specs.Kept.{IsOrder, out_of};

use crate::order::{first_order, move_frame};
use no_memory::NoMemory;
use std::alloc::{AllocError, Global};
use std::marker::Model;

/// The number of a frame, from 0. Contracts see it as this number.
#[derive(Clone, Copy, Debug, PartialEq, Eq)]
pub struct FrameNo(pub u32);

impl Model for FrameNo {
    ghost use Rattle.std.specs.Prelude.{ℕ};

    ghost Value = { ℕ };

    ghost view = { λ frame. frame.0 };

    ghost inverse = { λ n. record { 0 = n } };
}

/// At most 4,096 frames of four words. Contracts see whether each frame is out, and its words.
#[derive(Drop)]
pub struct LinePool {
    order: Vec<u32>,
    place: Vec<u32>,
    words: Vec<[u32; 4]>,
    free: usize,
}

impl Model for LinePool {
    ghost use Rattle.line_pool.specs.Pools.{Pool};
    ghost use Rattle.line_pool.specs.Kept.{IsKept, out_of};

    ghost Value = { Pool };

    ghost view = { λ p. record { out = out_of p.place.items p.free; words = p.words.items } };

    ghost invariant = { λ p. IsKept p.order.items p.place.items p.words.items p.free };
}

/// Each frame of a pool is free or out, and none is both. A frame is free while fewer are out than
/// there are in the pool.
pub fn frames_are_free_or_out()
    ensures either { (pool : Pool) (frame : ℕ) → frame < length pool.out
        → IsFree pool frame ⊎ IsOut pool frame }
    ensures never_both { (pool : Pool) (frame : ℕ) → IsFree pool frame → ¬ (IsOut pool frame) }
    ensures some_free { (pool : Pool) → count_out pool.out < length pool.out → ¬ (AllOut pool) }
{}

/// Allocates a pool whose frames are all free. Fails where memory runs out.
fn made(alloc: Global, frames: u32) -> Result<LinePool, AllocError>
    requires { frames ≤ 4096 }
    ensures { IfOk result (λ pool. pool ≡ all_free frames) }
{
    let order = first_order(alloc, frames)?;
    let place = first_order(alloc, frames)?;
    let words = vec![in alloc; [0; 4]; frames as usize]?;
    Ok(LinePool {
        order,
        place,
        words,
        free: frames as usize,
    })
}

impl LinePool {
    /// A pool of this many frames, all free. Their words are 0.
    pub fn new(alloc: Global, frames: u32) -> Result<LinePool, NoMemory>
        requires { frames ≤ 4096 }
        ensures pool { IfOk result (λ pool. pool ≡ all_free frames) }
        ensures count { IfOk result (λ pool. count_out pool.out ≡ 0) }
    {
        match made(alloc, frames) {
            Ok(pool) => Ok(pool),
            Err(_) => Err(NoMemory),
        }
    }

    /// Takes a free frame, which is out from then on. `None` where every frame is out.
    pub fn take(&mut self) -> Option<FrameNo>
        ensures none { IsNone result ↔ AllOut self.old }
        ensures same { IfNone result (self.new ≡ self.old) }
        ensures free { IfSome result (λ frame. IsFree self.old frame) }
        ensures taken { IfSome result (λ frame. self.new ≡ with_out self.old frame true) }
        ensures count { IfSome result
            (λ frame. count_out self.new.out ≡ count_out self.old.out + 1) }
    {
        if self.free == 0 {
            return None;
        }
        self.free -= 1;
        Some(FrameNo(self.order[self.free]))
    }

    /// Gives a frame back, which is free from then on.
    pub fn give(&mut self, frame: FrameNo)
        requires { IsOut self.old frame }
        ensures given { self.new ≡ with_out self.old frame false }
        ensures count { count_out self.new.out + 1 ≡ count_out self.old.out }
    {
        move_frame(
            &mut self.order,
            &mut self.place,
            frame.0 as usize,
            self.free,
        );
        self.free += 1;
    }

    /// A word of a frame that is out.
    pub fn word(&self, frame: FrameNo, offset: u8) -> u32
        requires frame { IsOut self.now frame }
        requires offset { offset < 4 }
        ensures { result ≡ slice_index (words_of self.now frame) offset }
    {
        self.words[frame.0 as usize][offset as usize]
    }

    /// The four words of a frame that is out.
    pub fn words(&self, frame: FrameNo) -> [u32; 4]
        requires { IsOut self.now frame }
        ensures { result ≡ words_of self.now frame }
    {
        let place = frame.0 as usize;
        self.words[place]
    }

    /// Sets a word of a frame that is out.
    pub fn set_word(&mut self, frame: FrameNo, offset: u8, value: u32)
        requires frame { IsOut self.old frame }
        requires offset { offset < 4 }
        ensures { self.new
            ≡ with_words self.old frame (slice_set (words_of self.old frame) offset value) }
    {
        self.words[frame.0 as usize][offset as usize] = value;
    }

    /// Sets the four words of a frame that is out.
    pub fn fill(&mut self, frame: FrameNo, words: [u32; 4])
        requires { IsOut self.old frame }
        ensures { self.new ≡ with_words self.old frame words }
    {
        self.words[frame.0 as usize] = words;
    }
}
