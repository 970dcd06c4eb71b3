// Buffers of nodes to come. What adds entries takes them from here, so it takes no memory, and what
// frees a node puts its buffers back.
ghost use Rattle.std.specs.Prelude.{◌≡◌, ◌≤◌, ◌<◌, ◌+◌, [], vec_capacity, OnOk, OnErr, IfOk};

use rg_base::no_memory::NoMemory;
use rg_base::place::Place;
use rg_bulk::node::{KEY_ROOM, KID_ROOM, Node};
use std::alloc::Global;
use std::marker::Model;

/// Empty buffers for keys and for children, each with the room of a node. It is seen as how many
/// there are of each, and how many it can hold without memory.
#[derive(Drop)]
pub struct Pool {
    keys: Vec<Vec<(u64, Place)>>,
    kids: Vec<Vec<Node>>,
}

impl Model for Pool {
    ghost use Rattle.std.specs.Prelude.{vec_capacity, vec_len};
    ghost use Rattle.rg_btree.specs.Spares.{Spares, AreBuffers};

    ghost Value = { Spares };

    ghost view = { λ p. record {
      keys = vec_len p.keys;
      kids = vec_len p.kids;
      key_room = vec_capacity p.keys;
      kid_room = vec_capacity p.kids;
    } };

    ghost invariant = { λ p. AreBuffers p.keys.items p.kids.items };
}

impl Pool {
    /// A pool without buffers. It takes no memory.
    pub fn new(alloc: Global) -> Pool
        ensures { result ≡ record { keys = 0; kids = 0; key_room = 0; kid_room = 0 } }
    {
        Pool {
            keys: Vec::new(alloc),
            kids: Vec::new(alloc),
        }
    }

    /// Makes room for so many buffers of each kind.
    pub fn make_room(&mut self, keys: usize, kids: usize) -> Result<(), NoMemory>
        ensures keys { self.new.keys ≡ self.old.keys }
        ensures kids { self.new.kids ≡ self.old.kids }
        ensures key_room { OnOk result (keys ≤ self.new.key_room) }
        ensures kid_room { OnOk result (kids ≤ self.new.kid_room) }
        ensures not_fewer_keys { self.old.key_room ≤ self.new.key_room }
        ensures not_fewer_kids { self.old.kid_room ≤ self.new.kid_room }
    {
        let more_keys = keys.saturating_sub(self.keys.len());
        self.keys.reserve(more_keys)?;
        let more_kids = kids.saturating_sub(self.kids.len());
        self.kids.reserve(more_kids)?;
        Ok(())
    }

    /// Takes memory for one buffer of keys more.
    pub fn grow_keys(&mut self, alloc: Global) -> Result<(), NoMemory>
        requires { self.old.keys < self.old.key_room }
        ensures ok { OnOk result (self.new.keys ≡ self.old.keys + 1) }
        ensures err { OnErr result (self.new.keys ≡ self.old.keys) }
        ensures kids { self.new.kids ≡ self.old.kids }
        ensures key_room { self.old.key_room ≤ self.new.key_room }
        ensures kid_room { self.new.kid_room ≡ self.old.kid_room }
    {
        let buffer = Vec::with_capacity(alloc, KEY_ROOM)?;
        self.keys.push(buffer)?;
        Ok(())
    }

    /// Takes memory for one buffer of children more.
    pub fn grow_kids(&mut self, alloc: Global) -> Result<(), NoMemory>
        requires { self.old.kids < self.old.kid_room }
        ensures ok { OnOk result (self.new.kids ≡ self.old.kids + 1) }
        ensures err { OnErr result (self.new.kids ≡ self.old.kids) }
        ensures keys { self.new.keys ≡ self.old.keys }
        ensures key_room { self.new.key_room ≡ self.old.key_room }
        ensures kid_room { self.old.kid_room ≤ self.new.kid_room }
    {
        let buffer = Vec::with_capacity(alloc, KID_ROOM)?;
        self.kids.push(buffer)?;
        Ok(())
    }

    /// Takes a buffer of keys out.
    pub fn take_keys(&mut self) -> Vec<(u64, Place)>
        requires { 0 < self.old.keys }
        ensures empty { result.items ≡ [] }
        ensures room { 257 ≤ vec_capacity result }
        ensures fewer { self.new.keys + 1 ≡ self.old.keys }
        ensures kids { self.new.kids ≡ self.old.kids }
        ensures key_room { self.new.key_room ≡ self.old.key_room }
        ensures kid_room { self.new.kid_room ≡ self.old.kid_room }
    {
        match self.keys.pop() {
            Some(buffer) => buffer,
            None => unreachable!(),
        }
    }

    /// Takes a buffer of children out.
    pub fn take_kids(&mut self) -> Vec<Node>
        requires { 0 < self.old.kids }
        ensures empty { result.items ≡ [] }
        ensures room { 226 ≤ vec_capacity result }
        ensures fewer { self.new.kids + 1 ≡ self.old.kids }
        ensures keys { self.new.keys ≡ self.old.keys }
        ensures key_room { self.new.key_room ≡ self.old.key_room }
        ensures kid_room { self.new.kid_room ≡ self.old.kid_room }
    {
        match self.kids.pop() {
            Some(buffer) => buffer,
            None => unreachable!(),
        }
    }

    /// Puts a buffer of keys back.
    pub fn give_keys(&mut self, mut buffer: Vec<(u64, Place)>)
        requires room { self.old.keys < self.old.key_room }
        requires buffer { 257 ≤ vec_capacity buffer }
        ensures more { self.new.keys ≡ self.old.keys + 1 }
        ensures kids { self.new.kids ≡ self.old.kids }
        ensures key_room { self.old.key_room ≤ self.new.key_room }
        ensures kid_room { self.new.kid_room ≡ self.old.kid_room }
    {
        buffer.clear();
        let given = self.keys.push(buffer);
        prove!(given.is_ok());
    }

    /// Puts an empty buffer of children back.
    pub fn give_kids(&mut self, buffer: Vec<Node>)
        requires room { self.old.kids < self.old.kid_room }
        requires empty { buffer.items ≡ [] }
        requires buffer { 226 ≤ vec_capacity buffer }
        ensures more { self.new.kids ≡ self.old.kids + 1 }
        ensures keys { self.new.keys ≡ self.old.keys }
        ensures key_room { self.new.key_room ≡ self.old.key_room }
        ensures kid_room { self.old.kid_room ≤ self.new.kid_room }
    {
        let given = self.kids.push(buffer);
        prove!(given.is_ok());
    }
}
