// E of each string, and the figures of a plan.
ghost use Rattle.std.specs.Prelude.{◌≡◌};
ghost use Rattle.rules.specs.Figures.{holds_of, figures_of};

use super::asking::hold;
use super::ready::ReadyPlan;
use rules::Figures;

impl ReadyPlan {
    // E by place; 0 where there is no string.
    fn holds(self) -> [u32; 10]
        ensures { result ≡ holds_of self.plan }
    {
        let mut holds = [0; 10];
        for (i, s) in self.strings().iter().enumerate() {
            holds[i] = hold(self.plan, *s);
        }
        holds
    }

    // The figures of the plan.
    #[tactic(auto, unfolding(rules::specs::Figures::figures_of))]
    pub(crate) fn figures(self) -> Figures
        ensures { result ≡ figures_of self.plan }
    {
        Figures {
            multiple: self.multiple,
            load: self.load(),
            holds: self.holds(),
        }
    }
}
