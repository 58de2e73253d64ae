//! One set of a board's cache.

ghost use Rattle.std.specs.Prelude.{◌≡◌, ◌<◌, ◌≤◌, IfOk, [], ◌∷◌, ◌++◌, length, vec_capacity};
ghost use Rattle.board.specs.Frames.{changed_words, frame_at, frames_with};
ghost use Rattle.board.specs.Sets.{first};
ghost use Rattle.board.specs.Pooled.{AreOut, pool_after};

use crate::change::Change;
use crate::frame::{Frame, change_all, frame_of, give_all, remove_all, set_states};
use line_pool::LinePool;
use moesi_state::State;
use no_memory::NoMemory;
use std::alloc::Global;
use std::marker::Model;

/// The frames of one set, in order of fill. Contracts see them and how many there is room for.
#[derive(Drop)]
pub struct LineSet {
    frames: Vec<Frame>,
}

impl Model for LineSet {
    ghost use Rattle.std.specs.Prelude.{vec_capacity};
    ghost use Rattle.board.specs.Sets.{LineSet};

    ghost Value = { LineSet };

    ghost view = { λ s. record { frames = s.frames.items; room = vec_capacity s.frames } };
}

/// Gives the frames of a line a state. The state I gives them up.
fn set_or_remove(frames: &mut Vec<Frame>, line: u32, state: State)
    ensures items { frames.new.items ≡ frames_with frames.old.items line state }
    ensures room { vec_capacity frames.new ≡ vec_capacity frames.old }
{
    if state.holds() {
        set_states(frames, line, state);
    } else {
        remove_all(frames, line);
    }
}

/// Changes the words of a line's frames, or gives the frames back if the new state is I.
fn change_or_give(frames: &[Frame], pool: &mut LinePool, line: u32, state: State, how: Change)
    requires { AreOut pool.old frames.now }
    ensures { pool.new ≡ pool_after frames.now line state (changed_words how) pool.old }
{
    if state.holds() {
        change_all(frames, pool, line, how);
    } else {
        give_all(frames, pool, line);
    }
}

impl LineSet {
    /// An empty set with room for this many frames.
    pub fn new(alloc: Global, ways: usize) -> Result<LineSet, NoMemory>
        ensures empty { IfOk result (λ s. s.frames ≡ []) }
        ensures room { IfOk result (λ s. ways ≤ s.room) }
    {
        match Vec::with_capacity(alloc, ways) {
            Ok(frames) => Ok(LineSet { frames }),
            Err(_) => Err(NoMemory),
        }
    }

    /// How many frames the set has.
    pub fn len(&self) -> usize
        ensures { result ≡ length self.now.frames }
    {
        self.frames.len()
    }

    /// The frame of a line.
    pub fn frame(&self, line: u32) -> Option<Frame>
        ensures { result ≡ frame_at self.now.frames line }
    {
        frame_of(&self.frames, line)
    }

    /// The frame that was filled first.
    pub fn oldest(&self) -> Option<Frame>
        ensures { result ≡ first self.now.frames }
    {
        self.frames.first().copied()
    }

    /// Gives the frame of a line a state and changes its words. In the state I it goes back to the
    /// pool.
    pub fn change(&mut self, pool: &mut LinePool, line: u32, state: State, how: Change)
        requires { AreOut pool.old self.old.frames }
        ensures set { self.new
            ≡ record { frames = frames_with self.old.frames line state; room = self.old.room } }
        ensures pool { pool.new
            ≡ pool_after self.old.frames line state (changed_words how) pool.old }
    {
        change_or_give(&self.frames, pool, line, state, how);
        set_or_remove(&mut self.frames, line, state);
    }

    /// Adds a frame.
    pub fn push(&mut self, frame: Frame)
        requires { length self.old.frames < self.old.room }
        ensures { self.new
            ≡ record { frames = self.old.frames ++ frame ∷ []; room = self.old.room } }
    {
        self.frames.push_reserved(frame);
    }
}
