ghost use Rattle.op_invert.specs.Laws.{Applies, StaysStructured, Undoes, InverseLengths, Twice, TwiceSame, TwiceNormal};

/// Where an operation applies, its inverse applies to what it gives, and gives the document back. It is structured where the
/// operation is, takes as many items as that gives, gives as many as that takes, and inserts as many as that deletes.
pub fn inverse_holds()
    ensures applies { Applies }
    ensures structured { StaysStructured }
    ensures undoes { Undoes }
    ensures lengths { InverseLengths }
{}

/// The inverse of the inverse is the operation, each deletion of which names all annotations of the item that it takes; so it is
/// the operation itself exactly where each of its deletions does so already.
pub fn inverse_twice_holds()
    ensures twice { Twice }
    ensures same { TwiceSame }
    ensures normal { TwiceNormal }
{}
