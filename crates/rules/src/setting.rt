// What a derivation is read and walked over: the pile, the number of principals and the formulas.
use logic::table::FormulaTable;

#[derive(Drop)]
pub struct Setting<'a, K> {
    pub pile: &'a K,
    pub principals: u16,
    pub table: &'a FormulaTable,
}
