// What is worked out before a cycle writes anything: the slots that begin, what goes on the source wires and the outputs, and whether the
// cycle has a fault.
#![tactic(auto)]

ghost use Rattle.std.specs.Prelude.{◌≡◌, IfOk};
ghost use Rattle.refusal.specs.Numbers.{number_of};
ghost use Rattle.network.specs.Inner.Live.{Covered};
ghost use Rattle.network.specs.OneMachine.{cycle_fault};
ghost use Rattle.tables.specs.Inner.Ready.{Ready};
ghost use Rattle.tables.specs.Inner.Tables.{Tables, Empty};
ghost use Rattle.tables.specs.Inner.Moving.{Moving};

use network::{Live, ROW_WORDS};
use refusal::Refusal;

// The tables of a cycle: the slots that begin, by circuit, the marks and words on the source wires, by node, and those on the outputs. Marks and
// words are apart, as in the rows of the state that C lends: pairs would be put together at each reading and taken apart at each writing.
#[derive(Clone, Copy)]
pub struct Prepared {
    pub slots: [u32; 64],
    pub marks: [u32; 16],
    pub cells: [u32; 16],
    pub outs: [u32; ROW_WORDS],
    pub values: [u32; ROW_WORDS],
}

// The circuits that act in a cycle, and the nodes on whose source wires something may be, each as a mask.
#[derive(Clone, Copy)]
pub struct Masks {
    pub acting: u64,
    pub wires: u64,
}

impl Prepared {
    // Tables of zeros.
    pub fn blank() -> Prepared
        ensures { Empty result.slots result.marks result.cells result.outs result.values }
    {
        Prepared {
            slots: [0; 64],
            marks: [0; 16],
            cells: [0; 16],
            outs: [0; ROW_WORDS],
            values: [0; ROW_WORDS],
        }
    }

    // Works out the tables of a cycle, from zeros, unless it has a fault; then the tables are of no use. machine::step_live lends what it
    // requires.
    pub fn fill(&mut self, s: &[u32], m: &[u32], live: Live) -> Result<Masks, Refusal>
        requires { (Ready s.now m.now) × (Covered s.now live) × (Empty self.old.slots self.old.marks self.old.cells self.old.outs self.old.values) }
        ensures number { number_of result ≡ cycle_fault s.now }
        ensures tables { IfOk result (λ masks. Tables s.now m.now self.new.slots self.new.marks self.new.cells self.new.outs self.new.values) }
        ensures calm { IfOk result (λ masks. Moving s.now m.now masks.acting masks.wires) }
    {
        let z = network::sheet_of(s);
        let nodes = sheet::nodes_of(z);
        if routers::cross_among(s, nodes, live.heads, &mut self.outs, &mut self.values)
            || routers::has_unheld(s, nodes * 5)
        {
            return Err(Refusal::CycleAtFault);
        }
        let acting = sources::acting_now(s, z, live.sending, &mut self.slots);
        let wires = sources::source_wires_among(
            s,
            z,
            m,
            &self.slots,
            acting,
            &mut self.marks,
            &mut self.cells,
        )?;
        if receivers::has_stray_among(s, nodes, sheet::memory_of(z), live.outs) {
            return Err(Refusal::CycleAtFault);
        }
        Ok(Masks { acting, wires })
    }
}
