//! The values that a script named, and the verbs of these.

use crate::{bytes, directories, keys, pools, statements};
use authenticators::{Authenticator, AuthenticatorStore, Directory};
use lms_sign::SecretKey;
use probe_words::{Answer, Growths, Mistake, Table, Words, shown};
use std::alloc::{AllocError, Global};
use std::fmt::Display;

/// Bytes, keys, directories, lists of statements and stores of statements, by their names.
#[derive(Drop)]
pub struct Keyring {
    pub alloc: Global,
    pub growths: Growths,
    pub bytes: Table<Vec<u8>>,
    pub keys: Table<SecretKey>,
    pub directories: Table<Directory>,
    pub lists: Table<Vec<Authenticator>>,
    pub pools: Table<AuthenticatorStore>,
}

impl Keyring {
    /// Makes the keyring in which nothing has a name.
    pub fn new(alloc: Global) -> Keyring {
        Keyring {
            alloc,
            growths: Growths::new(alloc),
            bytes: Table::new(alloc),
            keys: Table::new(alloc),
            directories: Table::new(alloc),
            lists: Table::new(alloc),
            pools: Table::new(alloc),
        }
    }

    /// Returns the answer `ok`.
    pub fn done(&self) -> Result<Answer, Mistake> {
        Ok(Answer::of(self.alloc, "ok")?)
    }

    /// Returns the answer `yes` or `no`.
    pub fn whether(&self, holds: bool) -> Result<Answer, Mistake> {
        Ok(Answer::whether(self.alloc, holds)?)
    }

    /// Returns the refusal with this number, this name, and the line of the fault.
    pub fn refused<F: Display>(
        &self,
        number: u8,
        name: &str,
        fault: &F,
    ) -> Result<Answer, Mistake> {
        Ok(Answer::refused(self.alloc, number, name, fault)?)
    }

    /// Returns the refusal of a call that lacked memory.
    pub fn memory(&self, _: AllocError) -> Result<Answer, Mistake> {
        Ok(Answer::memory(self.alloc)?)
    }

    /// Returns what a call on the values that the words name could change: of keys the public key and the leaves that are left, of a
    /// directory its text, and of a pool its statements.
    pub fn seen(&self, words: &Words) -> Result<Vec<u8>, Mistake> {
        let mut bytes = Vec::new(self.alloc);
        for place in 1..4 {
            if let Ok(key) = self.keys.get(place, words.word(place)) {
                bytes.extend_from_slice(&key.public_key().to_bytes())?;
                bytes.extend_from_slice(&key.remaining().to_be_bytes())?;
            }
        }
        if let Ok(directory) = self.directories.get(1, words.word(1)) {
            bytes.extend_from_slice(&directory.to_bytes()?)?;
        }
        if let Ok(pool) = self.pools.get(1, words.word(1)) {
            let text = pools::list_text(self.alloc, pool.as_slice())?;
            bytes.extend_from_slice(text.as_bytes())?;
        }
        Ok(bytes)
    }

    /// Makes the call of the line.
    pub fn answer(&mut self, words: &Words) -> Result<Answer, Mistake> {
        match words.verb() {
            "bytes" => bytes::name(self, words),
            "same" => bytes::same(self, words),
            "length" => bytes::length(self, words),
            "key" => keys::make(self, words),
            "public" => keys::public(self, words),
            "leaves" => keys::leaves(self, words),
            "sign" => keys::sign(self, words),
            "split" => keys::split(self, words),
            "statement_text" => statements::text(self, words),
            "same_statement" => statements::same(self, words),
            "valid" => statements::valid(self, words),
            "verifies_all" => statements::verifies_all(self, words),
            _ => self.answer_further(words),
        }
    }

    fn answer_further(&mut self, words: &Words) -> Result<Answer, Mistake> {
        match words.verb() {
            "directory" => directories::begin(self, words),
            "read_directory" => directories::read(self, words),
            "write_directory" => directories::write(self, words),
            "copy_directory" => directories::copy(self, words),
            "same_directory" => directories::same(self, words),
            "add" => directories::add(self, words),
            "add_key" => directories::add_key(self, words),
            "nodes" => directories::nodes(self, words),
            "lists" => directories::lists(self, words),
            "key_of" => directories::key_of(self, words),
            "key_at" => directories::key_at(self, words),
            "key_count" => directories::key_count(self, words),
            "keys_of" => directories::keys_of(self, words),
            _ => self.answer_of_pools(words),
        }
    }

    fn answer_of_pools(&mut self, words: &Words) -> Result<Answer, Mistake> {
        match words.verb() {
            "list" => pools::begin_list(self, words),
            "gather" => pools::gather(self, words),
            "pool" => pools::begin(self, words),
            "insert" => pools::insert(self, words),
            "insert_all" => pools::insert_all(self, words),
            "all" => pools::all(self, words),
            "at" => pools::at(self, words),
            "range" => pools::range(self, words),
            "count" => pools::count(self, words),
            "of_node" => pools::of_node(self, words),
            "conflict" => pools::conflict(self, words),
            _ => Err(Mistake::Verb),
        }
    }
}
