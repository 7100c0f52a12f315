//! Laws about captures from given values, as contracts of functions that do nothing.

ghost use Rattle.dft_capture.specs.Laws.{CaptureExists, CaptureIsAbove, CaptureIsOne, OrderIsRank};

/// In a design whose nets have an order there is exactly one capture.
pub fn capture_is_one()
    ensures rank { OrderIsRank }
    ensures exists { CaptureExists }
    ensures one { CaptureIsOne }
{}

/// Where more is known before a pulse, what is known after it stays.
pub fn capture_is_above()
    ensures { CaptureIsAbove }
{}
