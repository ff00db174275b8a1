//! Values by their names.

use crate::mistake::Mistake;
use std::alloc::{AllocError, Global};

#[derive(Drop)]
struct Named<T: Drop> {
    name: String,
    value: T,
}

/// Values of one kind, each with its name. A name that is given again names the new value.
#[derive(Drop)]
pub struct Table<T: Drop> {
    alloc: Global,
    named: Vec<Named<T>>,
}

impl<T: Drop> Table<T> {
    /// Makes the table in which nothing has a name.
    pub fn new(alloc: Global) -> Table<T> {
        Table {
            alloc,
            named: Vec::new(alloc),
        }
    }

    fn place_of(&self, name: &str) -> Option<usize> {
        self.named.iter().position(|one| one.name.as_str() == name)
    }

    /// Returns the value with this name, which is the word at this place of a line.
    pub fn get(&self, place: usize, name: &str) -> Result<&T, Mistake> {
        let Some(found) = self.place_of(name) else {
            return Err(Mistake::Name(place));
        };
        match self.named.get(found) {
            Some(one) => Ok(&one.value),
            None => Err(Mistake::Name(place)),
        }
    }

    /// Returns the value with this name, so that it can be changed.
    pub fn get_mut(&mut self, place: usize, name: &str) -> Result<&mut T, Mistake> {
        let Some(found) = self.place_of(name) else {
            return Err(Mistake::Name(place));
        };
        match self.named.get_mut(found) {
            Some(one) => Ok(&mut one.value),
            None => Err(Mistake::Name(place)),
        }
    }

    /// Gives the value this name.
    pub fn put(&mut self, name: &str, value: T) -> Result<(), AllocError> {
        let _ = self.take(name);
        let name = String::from_str(self.alloc, name)?;
        self.named.push(Named { name, value })?;
        Ok(())
    }

    /// Takes the value with this name out, if there is one.
    pub fn take(&mut self, name: &str) -> Option<T> {
        let found = self.place_of(name)?;
        if found < self.named.len() {
            return Some(self.named.swap_remove(found).value);
        }
        None
    }
}
