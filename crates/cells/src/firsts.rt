//! Names, each with the number with which it came first.
use rt_base::{Memory, Seq};
use rt_forms::Names;
use std::alloc::Global;

/// Names, each with the number with which it came first. Look-ups take about the same time however
/// many names there are.
#[derive(Drop)]
pub struct Firsts<N> {
    pub names: Names,
    pub numbers: Seq<N>,
}

impl<N: Copy + Drop> Firsts<N> {
    ghost use Rattle.std.specs.Prelude.{◌≡◌, ℕ, List, OnOk, Some, None, bytes_eq, if◌then◌else◌};
    ghost use Rattle.std.specs.Option.{option_or};
    ghost use Rattle.cells.specs.Firsts.{ArePaired, first_in};

    /// No names. Takes no memory.
    pub fn new(alloc: Global) -> Firsts<N>
        ensures paired { ArePaired result }
        ensures none { (q : List ℕ) → first_in result q ≡ None }
    {
        Firsts {
            names: Names::new(alloc),
            numbers: Seq::new(alloc),
        }
    }

    /// The number of a name.
    pub fn find(&self, name: &[u8]) -> Option<N>
        ensures { result ≡ first_in self.now name.now }
    {
        match self.names.find(name) {
            Some(k) => self.numbers.as_slice().get(k).copied(),
            None => None,
        }
    }

    /// A name comes with a number, which a name that came before doesn't take.
    pub fn claim(&mut self, alloc: Global, name: &[u8], number: N) -> Result<(), Memory>
        requires { ArePaired self.old }
        ensures paired { OnOk result (ArePaired self.new) }
        ensures claimed { OnOk result ((q : List ℕ) → first_in self.new q ≡ option_or (first_in self.old q) (if bytes_eq q name.now then Some number else None)) }
    {
        if self.names.add(alloc, name)? {
            self.numbers.push(number)?;
        }
        Ok(())
    }
}
