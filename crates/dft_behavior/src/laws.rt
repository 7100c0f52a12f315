//! Laws about what nets do, as contracts of functions that do nothing.

ghost use Rattle.dft_behavior.specs.Laws.{OrderIsRank, SettledIsOne, WalkFindsRoot, PortIsFound, ConstantIsFound, TracedBit, TracedConstant, WalkFindsClock, ClockIsFound, ClockBit, LockupByPin, TracedIsClock};
ghost use Rattle.dft_behavior.specs.RunExamples.{AllAtOnce, Exchange, LockedExchange, NoOrders, TwoThenOne};

/// A design with an order has exactly one settled assignment for given sources.
pub fn settled_is_one()
    ensures order { OrderIsRank }
    ensures one { SettledIsOne }
{}

/// Walks back find the roots that nets trace to, and what traces to a port has its bit.
pub fn traces_are_exact()
    ensures finds { WalkFindsRoot }
    ensures port { PortIsFound }
    ensures constant { ConstantIsFound }
    ensures bit { TracedBit }
    ensures constant_bit { TracedConstant }
{}

/// Walks back find the clocks that nets show, and what shows one has its port's bit or the inverse; a lock-up goes by the
/// net at its clock pin.
pub fn clocks_are_exact()
    ensures finds { WalkFindsClock }
    ensures found { ClockIsFound }
    ensures bit { ClockBit }
    ensures lockup { LockupByPin }
    ensures traced { TracedIsClock }
{}

/// Worked examples: clocks that pulse may rise at one instant, and fall at one. Flip-flops of such clocks then take the
/// bits from before, whether they feed each other, through a lock-up or not, or a third whose clock comes after.
pub fn worked_instants()
    ensures all { AllAtOnce }
    ensures others { NoOrders }
    ensures exchange { Exchange }
    ensures locked { LockedExchange }
    ensures three { TwoThenOne }
{}
