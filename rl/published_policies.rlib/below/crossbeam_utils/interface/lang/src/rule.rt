pub trait Outcome < T , V > {
    ghost then: { V → T → T → V → Type 0 };
}
pub trait Protocol < T , V > {
    ghost holds: { T → List V → Type 0 };
    ghost first: { V };
}
