// What the inner product, the partial sums and the separable start are. Definitions stand in specs/.
#![tactic(auto)]
