// A plan as its caller hands it in, and a plan that has passed its check.
ghost use Rattle.std.specs.Prelude.{[], ◌≡◌};
ghost use Rattle.inner_code.specs.Reply.{done};
ghost use Rattle.wiring.specs.Wiring.{plan_check};
ghost use Rattle.wiring.specs.Access.{count_for};
ghost use Rattle.wiring.specs.Code.{code_of};
ghost use Rattle.wiring.specs.PlanParts.{plan_in};
ghost use Rattle.wiring.specs.declared.side.SideName.{SideName};

use crate::side::{SideCode, SideName};

// The parts of a plan, of which nothing is checked: both sheets, both numbers of vertices and the wiring, which may be lent for longer than the
// sheets.
#[derive(Clone, Copy)]
pub struct PlanParts<'s, 'w> {
    pub left_sheet: &'s [u8],
    pub right_sheet: &'s [u8],
    pub nl: usize,
    pub nr: usize,
    pub wiring: &'w [u8],
}

// A plan that has passed its check, and its sides.
#[derive(Clone, Copy)]
pub struct CheckedPlan<'s, 'w> {
    pub parts: PlanParts<'s, 'w>,
    pub left: SideCode,
    pub right: SideCode,
    pub ghost passed: { plan_check (plan_in parts) ≡ done [] },
    pub ghost left_is: { left ≡ code_of (plan_in parts) SideName.Left },
    pub ghost right_is: { right ≡ code_of (plan_in parts) SideName.Right },
}

impl<'s, 'w> PlanParts<'s, 'w> {
    // The number of vertices of a side.
    pub fn count(&self, name: SideName) -> usize
        ensures { result ≡ count_for name self.now.nl self.now.nr }
    {
        match name {
            SideName::Left => self.nl,
            SideName::Right => self.nr,
        }
    }
}

impl<'s, 'w> CheckedPlan<'s, 'w> {
    ghost use Rattle.wiring.specs.Plan.{edge_count, sheet_of};

    // The number of edges, and of a block's bits.
    pub fn edges(&self) -> usize
        ensures { result ≡ edge_count (plan_in self.now.parts) }
    {
        self.left.n * self.left.d
    }

    // The side of a name.
    pub fn side(&self, name: SideName) -> SideCode
        ensures { result ≡ code_of (plan_in self.now.parts) name }
    {
        match name {
            SideName::Left => self.left,
            SideName::Right => self.right,
        }
    }

    // The sheet of a side.
    pub fn sheet(&self, name: SideName) -> &'s [u8]
        ensures { result.now ≡ sheet_of (plan_in self.now.parts) name }
    {
        match name {
            SideName::Left => self.parts.left_sheet,
            SideName::Right => self.parts.right_sheet,
        }
    }
}
