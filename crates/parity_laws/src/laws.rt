//! The laws of parities, each carried by a function that does nothing.

ghost use Rattle.std.specs.Prelude.{◌≡◌, ◌≢◌, ℕ, ◌*ℤ◌, Bool, true, false, not, ◌&&◌, List, ◌∷◌};
ghost use lib.Dec.{eqb};
ghost use Rattle.topo_base.specs.Point.{Point};
ghost use Rattle.plane.specs.Segment.{Segment};
ghost use Rattle.topo_base.specs.RationalPoint.{RationalPoint};
ghost use Rattle.plane.specs.RationalTests.{IsOn};
ghost use Rattle.plane.specs.Relation.{AreApart};
ghost use Rattle.plane.specs.Parity.{xor};
ghost use Rattle.plane.specs.Crossings.{back, way, larger_spot};
ghost use Rattle.parity_laws.specs.Steps.{Each, Even, above, above_at, times, left};
ghost use Rattle.parity_laws.specs.Walks.{Line, all_steps, EndsPair, NoHigher};
ghost use Rattle.parity_laws.specs.Rings.{In, Next, IsRing, Plain, Once, Within, First, View, those, Drawn, Ringwise, Sided, of_face, OneRing, SeesLeftAt};
ghost use Rattle.parity_laws.specs.Cuts.{Inner, cut, first_part};

/// A list of polylines whose ends pair up at each point is even: every test of points holds at as many
/// begins of steps as at ends, modulo 2.
pub fn lines_are_even()
    ensures { (ls : List Line) → EndsPair ls → Even (all_steps ls) }
{}

/// The parity of an even list of steps stays along a way that meets none of them.
pub fn parity_stays()
    ensures { (s : Segment) (X : List Segment) → Even X → Each (λ t. AreApart t s) X → above X s.a ≡ above X s.b }
{}

/// From one side of a step to the other the parity of an even list changes as often as the list has the step,
/// in one direction or the other.
pub fn parity_changes()
    ensures { (T X : List Segment) (d : Segment) → Plain T → Even X → Within X T → In d T
        → left X d ≡ xor (left X (back d)) (times X d) }
{}

/// Each step has one step next after it and is next after one alone. So each step has its ring, as a label
/// of steps, and a label that is one for each ring is even.
pub fn each_step_has_one_ring()
    ensures next { (T : List Segment) (s : Segment) → Plain T → In s T → (n : Segment) × (In n T × Next T s n) }
    ensures same { (T : List Segment) (d n m : Segment) → Plain T → In n T → In m T → Next T d n → Next T d m → n ≡ m }
    ensures apart { (T : List Segment) (d e n : Segment) → Plain T → In d T → In e T → Next T d n → Next T e n → d ≡ e }
    ensures ring { (T : List Segment) (s : Segment) → Plain T → In s T
        → (p : Segment → Bool) × (Ringwise T p × OneRing T p × (p s ≡ true) × ((t : Segment) → p t ≡ true → In t T)) }
    ensures even { (T : List Segment) (label : Segment → Bool) → Plain T → Once T → Ringwise T label → Even (those label T) }
{}

/// Left of a ring the parity of an even list is one constant, and a ring is even.
pub fn ring_has_one_side()
    ensures constant { (T X : List Segment) (d : Segment) (R : List Segment) → Plain T → Even X → Within X T
        → Within (d ∷ R) T → IsRing T (d ∷ R) → Each (λ t. left X t ≡ left X d) (d ∷ R) }
    ensures even { (T R : List Segment) → IsRing T R → Even R }
{}

/// A step cut in two at a point of it leaves every parity as it was.
pub fn cut_leaves_parity()
    ensures over { (s : Segment) (m : Point) (X : List Segment) → Inner m s → (q : Point)
        → above (cut s m X) q ≡ above X q }
    ensures others { (s : Segment) (m : Point) (X : List Segment) (t : Segment) → Inner m s → t.a ≢ m
        → left (cut s m X) t ≡ left X t }
    ensures part { (s : Segment) (m : Point) (X : List Segment) → Inner m s
        → left (cut s m X) (first_part s m) ≡ left X s }
{}

/// Left of a ring its own parity is 0 where the wedge straight above its top vertex is the ring's, and else 1:
/// a hole has 0, a shell has 1.
pub fn shell_by_parity()
    ensures { (T : List Segment) (ring : Segment → Bool) (n r : Segment)
        → Drawn T → Ringwise T ring → First T n → In r T → r.a ≡ n.a → ring r ≡ true
        → Each (NoHigher n.a) (those ring T) → left (those ring T) r ≡ not (ring n) }
{}

/// From each vertex straight up there is nothing, or a step that begins higher and has on its left what the
/// vertex has above it.
pub fn view_upward()
    ensures { (T : List Segment) → Drawn T → View T }
{}

/// Where each step of a face has the face on its left, so has each step of the two parts in which a ring
/// divides it; and so has each step of a new face in the outer face, which has the parity the other way round.
pub fn face_divided()
    ensures inner { (T : List Segment) (face ring : Segment → Bool) (c : Bool)
        → Drawn T → Ringwise T face → Ringwise T ring → Sided T face
        → Sided T (λ s. face s && not (xor (left (those ring T) s) c)) }
    ensures outer { (T : List Segment) (face ring : Segment → Bool)
        → Drawn T → Ringwise T face → Ringwise T ring
        → ((s : Segment) → In s T → left (those face T) s ≡ not (face s))
        → Sided T (λ s. face s && left (those ring T) s) }
{}

/// Where each step of two faces has its face on its left, so has each step of both together.
pub fn faces_joined()
    ensures { (T : List Segment) (f g : Segment → Bool) → Sided T f → Sided T g
        → Sided T (λ s. xor (f s) (g s)) }
{}

/// In a face whose steps have it on their left, the ring at a highest vertex is a shell.
pub fn highest_ring_is_shell()
    ensures { (T : List Segment) (face ring : Segment → Bool)
        → Drawn T → Ringwise T face → Ringwise T ring → Sided T face
        → ((s : Segment) → In s T → ring s ≡ true → face s ≡ true)
        → (n r : Segment) → First T n → In r T → r.a ≡ n.a → ring r ≡ true
        → Each (NoHigher n.a) (those face T) → left (those ring T) r ≡ true }
{}

/// Where each face but 0 is left of its steps, each point, whole or not, is in one face by parity.
pub fn rational_point_in_one_face()
    ensures { (T : List Segment) (F : Segment → ℕ) (q : RationalPoint) → Drawn T
        → ((f : ℕ) → f ≢ 0 → Ringwise T (of_face F f)) → ((f : ℕ) → f ≢ 0 → Sided T (of_face F f))
        → (g : ℕ) × ((f : ℕ) → f ≢ 0 → above_at (those (of_face F f) T) q ≡ eqb g f) }
{}

/// The parity of an even list of steps stays along a way between two rational points that meets none of them.
pub fn parity_stays_at_rational_points()
    ensures { (p q : RationalPoint) (X : List Segment) → Even X
        → Each (λ t. (r : RationalPoint) → IsOn r t → IsOn (larger_spot (p.d *ℤ q.d) r) (way p q) → ⊥) X
        → above_at X p ≡ above_at X q }
{}

/// A rational point that sees a step from its left, with nothing between, has above it what the step has on
/// its left.
pub fn near_point_sees_left()
    ensures { (T : List Segment) (X : List Segment) (d : Segment) (m q : RationalPoint)
        → Drawn T → SeesLeftAt T d m q → Even X → Within X T → left X d ≡ above_at X q }
{}

/// Two holes have no common vertex.
pub fn holes_share_no_vertex()
    ensures { (T : List Segment) (p q : Segment → Bool) (a b : Segment)
        → Drawn T → Ringwise T p → Ringwise T q → OneRing T p → OneRing T q
        → ((s : Segment) → In s T → p s ≡ true → q s ≡ false) → In a T → In b T → p a ≡ true → q b ≡ true
        → a.a ≡ b.a → left (those p T) a ≡ false → left (those q T) b ≡ false → ⊥ }
{}
