//! One direction of a connection, assembled from pieces that come in any order, more than once, or over each other.
ghost use Rattle.std.specs.Prelude.{◌≡◌, ◌≤◌, ◌<◌, ◌+◌, ◌-◌, ◌^◌, ◌++◌, ◌∷◌, [], ℕ, List, length, drop, IfSome, IfNone, OnOk, OnSome, IfOk, OnErr};
ghost use Rattle.std.specs.BTreeMap.{btree_map_len};
ghost use Rattle.std.specs.List.{All};
ghost use Rattle.jdwp_recording.specs.Streams.{Part, IsAssembled, end_of};

use std::alloc::{AllocError, Global};
use std::collections::BTreeMap;

/// Some bytes of a stream, the place of the first of them, from 0, and the packet that brought them.
#[derive(Clone, Copy, Debug)]
pub(crate) struct Piece<'a> {
    pub(crate) place: usize,
    pub(crate) packet: usize,
    pub(crate) bytes: &'a [u8],
    ghost fits: { place + length bytes.now < 2 ^ 64 },
}

/// How much of a stream is known, and what is kept behind a hole.
#[derive(Drop)]
pub(crate) struct Assembly<'a> {
    known: usize,
    ahead: BTreeMap<usize, Piece<'a>>,
}

impl<'a> Assembly<'a> {
    ghost use Rattle.jdwp_recording.specs.Assemblies.{Stands, part_of};

    /// Nothing is known.
    pub(crate) fn new(alloc: Global) -> Assembly<'a>
        ensures { Stands [] [] result }
    {
        Assembly {
            known: 0,
            ahead: BTreeMap::new(alloc),
        }
    }

    /// How many bytes are known.
    pub(crate) fn known(&self) -> usize
        ensures { result ≡ self.now.known }
    {
        self.known
    }

    /// Takes a piece, and gives what it adds to what is known.
    ///
    /// # Errors
    /// Where an allocation is refused; then nothing has changed.
    pub(crate) fn come(&mut self, piece: Piece<'a>) -> Result<&'a [u8], AllocError>
        ensures { IfOk result (λ fresh. (parts : List Part) (bytes : List ℕ) → Stands parts bytes self.old
            → Stands (parts ++ part_of piece.entry ∷ []) (bytes ++ fresh.now) self.new) }
    {
        if piece.place <= self.known {
            return Ok(self.join(piece));
        }
        self.keep(piece)?;
        Ok(&[])
    }

    /// What a kept piece adds, once the hole before it is filled. None where nothing is kept, or what is kept lies behind a hole.
    pub(crate) fn next(&mut self) -> Option<&'a [u8]>
        ensures some { IfSome result (λ fresh. (parts : List Part) (bytes : List ℕ) → Stands parts bytes self.old
            → Stands parts (bytes ++ fresh.now) self.new) }
        ensures none { IfNone result ((parts : List Part) (bytes : List ℕ) → Stands parts bytes self.new
            → IsAssembled parts bytes) }
        ensures same { IfNone result (self.new ≡ self.old) }
        ensures fewer { OnSome result (btree_map_len self.new.ahead < btree_map_len self.old.ahead) }
    {
        let Some((_, first)) = self.ahead.first_key_value() else {
            return None;
        };
        if first.place > self.known {
            return None;
        }
        let Some((_, piece)) = self.ahead.pop_first() else {
            return None;
        };
        Some(self.join(piece))
    }

    /// The packet that showed a hole, by what it has behind it.
    pub(crate) fn hole(&self) -> Option<usize>
        ensures { IfNone result ((parts : List Part) (bytes : List ℕ) → Stands parts bytes self.now
            → All (λ (p : Part). end_of p ≤ length bytes) parts) }
    {
        match self.ahead.first_key_value() {
            Some((_, kept)) => Some(kept.packet),
            None => None,
        }
    }

    /// What a piece adds that begins within what is known, or right behind it.
    fn join(&mut self, piece: Piece<'a>) -> &'a [u8]
        requires { piece.place ≤ self.old.known }
        ensures fresh { result.now ≡ drop (self.old.known - piece.entry.place) piece.entry.bytes.now }
        ensures known { self.new.known ≡ self.old.known + length result.now }
        ensures ahead { self.new.ahead ≡ self.old.ahead }
    {
        let known = self.known - piece.place;
        if known < piece.bytes.len() {
            self.known = piece.place + piece.bytes.len();
            &piece.bytes[known..]
        } else {
            &[]
        }
    }

    /// Keeps a piece that begins behind a hole; of two that begin at one place the longer.
    fn keep(&mut self, piece: Piece<'a>) -> Result<(), AllocError>
        ensures known { self.new.known ≡ self.old.known }
        ensures kept { OnOk result ((parts : List Part) (bytes : List ℕ) → Stands parts bytes self.old
            → Stands (parts ++ part_of piece.entry ∷ []) bytes self.new) }
    {
        let packet = match self.ahead.get(&piece.place) {
            Some(kept) if kept.bytes.len() >= piece.bytes.len() => return Ok(()),
            Some(kept) => kept.packet,
            None => piece.packet,
        };
        let kept = Piece {
            place: piece.place,
            packet,
            bytes: piece.bytes,
        };
        match self.ahead.insert(piece.place, kept) {
            Ok(_) => Ok(()),
            Err(_) => Err(AllocError),
        }
    }
}
