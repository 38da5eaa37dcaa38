//! Instructions on two memories: laws by which a row that does something on one does the same on the other.

ghost use Rattle.sb_exec.specs.Simulation.{RowsAgreeing, RowsTold, RowsAlike, RowsIn, ExecutesTold, ExecutesAgreeing};

/// Two families of memories, and a relation between their meanings. It has no values: a type stands for the pair.
pub trait Pair {
    ghost use Rattle.sb_bus.specs.Interface.{Interface};

    /// Which of the family, as a thread and its view.
    ghost Of: { Type 0 };

    ghost Left: { Type 0 };

    ghost LeftAccount: { Type 0 };

    ghost Right: { Type 0 };

    ghost RightAccount: { Type 0 };

    ghost left: { Of → Interface Left LeftAccount };

    ghost right: { Of → Interface Right RightAccount };

    /// Which meanings stand for the same.
    ghost related: { Of → Left → Right → Type 0 };
}

/// A row that accesses only bytes at which the memories agree is executed alike on both.
pub fn rows_agreeing<P: Pair>()
    ensures { (which : P.Of) → RowsAgreeing (P.related which) (P.left which) (P.right which) }
{}

/// Memories whose bytes agree, each stop by another name, execute each row alike.
pub fn rows_told<P: Pair>()
    ensures { (which : P.Of) → RowsTold (P.related which) (P.left which) (P.right which) }
{}

/// Memories whose bytes agree execute each row alike.
pub fn rows_alike<P: Pair>()
    ensures { (which : P.Of) → RowsAlike (P.related which) (P.left which) (P.right which) }
{}

/// Two executions of one row on related memories that agree where it accesses them end alike.
pub fn executes_agreeing<P: Pair>()
    ensures { (which : P.Of) → ExecutesAgreeing (P.related which) (P.left which) (P.right which) }
{}

/// Two executions of one row on related memories whose bytes agree end alike.
pub fn executes_told<P: Pair>()
    ensures { (which : P.Of) → ExecutesTold (P.related which) (P.left which) (P.right which) }
{}

/// A row that meets none of some stops on the left is executed alike on both.
pub fn rows_in<P: Pair>()
    ensures { (which : P.Of) → RowsIn (P.related which) (P.left which) (P.right which) }
{}
