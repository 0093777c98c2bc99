//! The numbers of the groups that hold each variable.

ghost use Rattle.std.specs.Prelude.{◌≡◌, ◌<◌, ◌++◌, ◌==◌, ℕ, [], ◌∷◌, length, filter, OnOk, OnErr};
ghost use Rattle.mm_tables.specs.Numbering.{numbers_of, copies, shorter};

use std::alloc::{AllocError, Global};
use std::marker::Model;

/// Of each variable the numbers of the groups that hold it, the newest last.
#[derive(Drop)]
pub struct Holders {
    numbers: Vec<Vec<u32>>,
}

impl Model for Holders {
    ghost use Rattle.std.specs.Prelude.{List, ℕ};
    ghost use Rattle.mm_tables.specs.Texts.{texts};

    ghost Value = { List (List ℕ) };

    ghost view = { λ h. texts h.numbers.items };
}

impl Holders {
    pub fn new(alloc: Global) -> Holders
        ensures { result ≡ [] }
    {
        Holders {
            numbers: Vec::new(alloc),
        }
    }

    /// The numbers of the groups that hold a variable.
    pub fn numbers(&self, variable: u32) -> &[u32]
        ensures { result.now ≡ numbers_of self.now variable }
    {
        let place = variable as usize;
        if place < self.numbers.len() {
            self.numbers[place].as_slice()
        } else {
            &[]
        }
    }

    /// Makes room for a variable.
    fn reach(&mut self, alloc: Global, variable: u32) -> Result<(), AllocError>
        ensures reached { OnOk result (variable < length self.new) }
        ensures same { (n : ℕ) → numbers_of self.new n ≡ numbers_of self.old n }
    {
        while self.numbers.len() <= variable as usize {
            self.numbers.push(Vec::new(alloc))?;
        }
        Ok(())
    }

    /// Puts a number on top of a variable's.
    fn put(&mut self, variable: u32, number: u32) -> Result<(), AllocError>
        requires { variable < length self.old }
        ensures ok { OnOk result ((n : ℕ) → numbers_of self.new n ≡ numbers_of self.old n ++ copies number (variable ∷ []) n) }
        ensures err { OnErr result ((n : ℕ) → numbers_of self.new n ≡ numbers_of self.old n) }
    {
        self.numbers[variable as usize].push(number)?;
        Ok(())
    }

    /// Adds the number of a group that holds a variable.
    fn add(&mut self, alloc: Global, variable: u32, number: u32) -> Result<(), AllocError>
        ensures ok { OnOk result ((n : ℕ) → numbers_of self.new n ≡ numbers_of self.old n ++ copies number (variable ∷ []) n) }
        ensures err { OnErr result ((n : ℕ) → numbers_of self.new n ≡ numbers_of self.old n) }
    {
        self.reach(alloc, variable)?;
        self.put(variable, number)
    }

    /// Takes the newest number of a variable away.
    fn remove(&mut self, variable: u32)
        ensures { (n : ℕ) → numbers_of self.new n ≡ shorter (length (filter (λ m. n == m) (variable ∷ []))) (numbers_of self.old n) }
    {
        let place = variable as usize;
        if place < self.numbers.len() {
            let _ = self.numbers[place].pop();
        }
    }

    /// Takes the newest number of each variable of a group away.
    pub fn remove_all(&mut self, group: &[u32])
        ensures { (n : ℕ) → numbers_of self.new n ≡ shorter (length (filter (λ m. n == m) group.now)) (numbers_of self.old n) }
    {
        for variable in group {
            self.remove(*variable);
        }
    }

    /// Adds the number of a group for each of its variables.
    pub fn add_all(&mut self, alloc: Global, group: &[u32], number: u32) -> Result<(), AllocError>
        ensures ok { OnOk result ((n : ℕ) → numbers_of self.new n ≡ numbers_of self.old n ++ copies number group.now n) }
        ensures err { OnErr result ((n : ℕ) → numbers_of self.new n ≡ numbers_of self.old n) }
    {
        for place in 0..group.len() {
            if self.add(alloc, group[place], number).is_err() {
                self.remove_all(&group[..place]);
                return Err(AllocError);
            }
        }
        Ok(())
    }
}
