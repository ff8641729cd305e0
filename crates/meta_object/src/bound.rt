use expr_tree::Body;
use restrictions::Restrictions;
use rule_model::Claim;

/// What a binding came to: where it serves, what it answers, and what it claims.
#[derive(Debug, Drop)]
pub struct Bound {
    /// Where it serves: all of these hold.
    pub restrictions: Restrictions,
    /// What it answers.
    pub body: Body,
    /// What it rests on beside.
    pub claim: Claim,
}
