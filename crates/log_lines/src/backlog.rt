//! The lines that wait.
ghost use Rattle.std.specs.Prelude.{◌≡◌, ◌==◌, ◌&&◌, ◌≤◌, length, IfOk};
ghost use Rattle.log_lines.specs.Backlog.{nothing_waits, with_line, next_line, after_next};

use circular_buffer::HeapCircularBuffer;
use std::alloc::{AllocError, Global};
use std::marker::Model;
use std::mem;

/// What is to be written next.
#[derive(Drop)]
pub struct NextLine<T> {
    /// How many lines were lost before this one.
    pub lost: u64,
    /// The line; none where lines were lost and no other has come since.
    pub line: Option<T>,
}

/// Lines that wait, the oldest first, at most so many, and how many were lost after them.
#[derive(Drop)]
pub struct Backlog<T> {
    lines: HeapCircularBuffer<NextLine<T>>,
    lost: u64,
}

impl<T> Model for Backlog<T> {
    ghost use Rattle.std.specs.Prelude.{◌≤◌, length};
    ghost use Rattle.log_lines.specs.Backlog.{Waiting};

    ghost Value = { Waiting T };

    ghost view = { λ b. record { lines = b.lines.items; lost = b.lost; most = b.lines.capacity } };

    ghost invariant = { λ b. length b.lines.items ≤ b.lines.capacity };
}

impl<T: Drop> Backlog<T> {
    /// No line waits, and none was lost; at most `most` ever wait. It takes the memory for all of them.
    pub fn new(alloc: Global, most: usize) -> Result<Backlog<T>, AllocError>
        ensures { IfOk result (λ backlog. backlog ≡ nothing_waits most) }
    {
        Ok(Backlog {
            lines: HeapCircularBuffer::with_capacity(alloc, most)?,
            lost: 0,
        })
    }

    /// Adds a line: where there is room it waits, with how many were lost before it; else it is lost and counted (own).
    pub fn add(&mut self, line: T)
        ensures { self.new ≡ with_line self.old line }
    {
        if self.lines.is_full() {
            self.lost = self.lost.saturating_add(1);
            return;
        }
        let lost = mem::replace(&mut self.lost, 0);
        let line = Some(line);
        let _ = self.lines.push_back(NextLine { lost, line });
    }

    /// Takes the oldest line that waits; where none does, how many were lost, if any (own).
    pub fn take(&mut self) -> Option<NextLine<T>>
        ensures next { result ≡ next_line self.old }
        ensures rest { self.new ≡ after_next self.old }
    {
        if let Some(next) = self.lines.pop_front() {
            return Some(next);
        }
        let lost = mem::replace(&mut self.lost, 0);
        if lost == 0 {
            return None;
        }
        Some(NextLine { lost, line: None })
    }

    /// Whether there is nothing to be written: no line waits, and none was lost after the last that was taken.
    pub fn is_empty(&self) -> bool
        ensures { result ≡ ((length self.now.lines == 0) && (self.now.lost == 0)) }
    {
        self.lines.is_empty() && self.lost == 0
    }
}
