// Theorems that the check asks for: each function's contract is one.
ghost use Rattle.records.specs.declared.numbers.FormulaNumber.{FormulaNumber};
ghost use Rattle.logic.specs.Models.{Formula};
ghost use Rattle.rules.specs.Applying.{ComputesRules};

// What is computed of a step is what the rules say, over formulas as trees and by their numbers.
pub fn computes_rules()
    ensures trees { ComputesRules Formula }
    ensures numbers { ComputesRules FormulaNumber }
{}
