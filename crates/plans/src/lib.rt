// Planning: what it hands back, the lists that it writes and those that a run is lent, and in specs/ what it takes, its checks, what it writes, and what holds
// of every planning that is accepted.
#![tactic(auto)]

ghost use Rattle.std.specs.Prelude.{◌≡◌};

use function::Elements;
use integrands::Integrand;

// The touching pairs per two kinds: the kind of the test cell, then that of the trial cell.
#[repr(C)]
#[derive(Clone, Copy, Default)]
pub struct KindPairs {
    pub triangle_triangle: u32,
    pub triangle_quad: u32,
    pub quad_triangle: u32,
    pub quad_quad: u32,
}

// The numbers that planning hands back: the sizes C, V and E of the mesh, the cells per kind, S (touching pairs), N (distant pairs), the touching pairs per two
// kinds, the DOF counts (rows for test, columns for trial), the elements and the integrand. (The plan itself is the kind list, the two DOF lists and the work
// list, which are lent.)
#[derive(Clone, Copy)]
pub struct PlanNumbers {
    pub cells: u32,
    pub vertices: u32,
    pub edges: u32,
    pub triangles: u32,
    pub quads: u32,
    pub touching: u32,
    pub distant: u32,
    pub pairs: KindPairs,
    pub rows: u32,
    pub columns: u32,
    pub test: Elements,
    pub trial: Elements,
    pub integrand: Integrand,
}

// The plan that a run's calls are lent, as planning wrote it: the kind list, the two DOF lists and the work list.
#[derive(Clone, Copy)]
pub struct Plan<'a> {
    pub kinds: &'a [u8],
    pub test_dofs: &'a [u32],
    pub trial_dofs: &'a [u32],
    pub work: &'a [u32],
}

// The lists that planning is lent to write: each side has its own DOF, colour and owner list. (A struct of the three, twice, was tried: `seivalto_plan`, which
// C lends each list by itself, failed with "a struct holds at one lifetime parameter two references at two lifetimes".)
#[derive(Drop)]
pub struct PlanLists<'a> {
    pub test_dofs: &'a mut [u32],
    pub trial_dofs: &'a mut [u32],
    pub test_colours: &'a mut [u32],
    pub trial_colours: &'a mut [u32],
    pub test_owners: &'a mut [u32],
    pub trial_owners: &'a mut [u32],
    pub work: &'a mut [u32],
}

impl PlanLists<'_> {
    // The plan that stands in the lists, of a mesh with this kind list.
    pub fn plan<'a>(&'a self, kinds: &'a [u8]) -> Plan<'a>
        ensures kinds { result.kinds.now ≡ kinds.now }
        ensures test_dofs { result.test_dofs.now ≡ self.now.test_dofs.now }
        ensures trial_dofs { result.trial_dofs.now ≡ self.now.trial_dofs.now }
        ensures work { result.work.now ≡ self.now.work.now }
    {
        Plan {
            kinds,
            test_dofs: self.test_dofs,
            trial_dofs: self.trial_dofs,
            work: self.work,
        }
    }
}
