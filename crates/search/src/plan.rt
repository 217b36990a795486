//! Plans.
ghost use Rattle.std.specs.Prelude.{◌≡◌, ◌<◌, ◌≤◌, [], ◌∷◌, ◌++◌, length};

/// A plan: up to 30 actions, in the order in which they are taken.
// Stays an array with a length beside it: a plan is copied, and an `ArrayVec` is not.
#[derive(Clone, Copy)]
pub struct Plan {
    count: u8,
    actions: [u8; 30],
    ghost few: { count ≤ 30 },
    ghost wide: { length actions ≡ 30 },
}

impl Plan {
    ghost use Rattle.search.specs.Parts.{actions_of};

    /// The plan with no action.
    pub fn new() -> Plan
        ensures { actions_of result ≡ [] }
    {
        Plan {
            count: 0,
            actions: [0; 30],
        }
    }

    /// The actions, in their order.
    pub fn as_slice(&self) -> &[u8]
        ensures value { result.now ≡ actions_of self.now }
    {
        &self.actions[..usize::from(self.count)]
    }

    /// How many actions it has.
    pub fn len(&self) -> usize
        ensures value { result ≡ length (actions_of self.now) }
    {
        usize::from(self.count)
    }

    // One action more, after the others.
    pub(crate) fn push(&mut self, action: u8)
        requires { length (actions_of self.old) < 30 }
        ensures { actions_of self.new ≡ actions_of self.old ++ action ∷ [] }
    {
        self.actions[usize::from(self.count)] = action;
        self.count += 1;
    }
}
