//! Searches of small problems with colours: `trials/plain_search.py` gave the visits and the first covers.

use super::search::ends_so;

/// A problem, the visits of its empty prefix, and what is found first; no cover is an empty list.
static SEARCHES: [(&str, u64, &[u16]); 25] = [
    (
        "p q r | x y\np q x y:A\np r x:A y\np x:B\nq x:A\nr y:B\n",
        4,
        &[3, 1],
    ),
    (
        "a b c | x y\na y:blue\nc y:red\nb x\na x:red\nx\nb y:blue c\ny\na y\nx:red y:blue\n",
        5,
        &[4, 0],
    ),
    (
        "a b c | x\nx:red c\nx a b\nx:red c\na x:blue\na\nx:blue\nc x:blue b\n",
        4,
        &[5, 3],
    ),
    (
        "a b c | x y\ny:A a\ny:C x:B\na x:C b y:A\nx:B y:A c\nx:A b\ny:B x:B\nb\ny:C c\n",
        4,
        &[0, 2, 4],
    ),
    (
        "a b c d | x y\ny:B c d\nb a c y:B x:A\na\nb y:B\ny:A x:C d\ny:C\nx:C a\n",
        5,
        &[3, 0, 2],
    ),
    (
        "a b c d | x\nx d c b\nd x:red\nx:blue c b\na b x:blue\nd\nx b a\nb\nx:red c b a\n",
        5,
        &[7, 1],
    ),
    (
        "a b c d | x y z\ny:A c d\nz:A d a x\ny:A b z:A x\nz:A x:A y\nx d c z:A a\nx y:A\nz:A c b y\na x\n",
        4,
        &[4, 1],
    ),
    (
        "a b c | x y z\nx:C z:C\nb x:B\nx:B z:A y:C\nz:A x:A y:B a\nz:A b a\nz:C c\na c x:A\nx:A y:A\nc z:A y:C x:C\n",
        4,
        &[2, 5],
    ),
    (
        "a b c d | x y z\na\nc z:A d y:B x:B\nz:B a\na b y:A\na y:A c x:A b\nz:A x:A y:A d\ny:A d\nz:B x:B\nb z:A d\n",
        4,
        &[4, 5],
    ),
    (
        "a b c d e | x\nx:B a\na b x:B\nx:B d b a c\nd e\nc a d x:B\nx:B e\nd a e\n",
        4,
        &[2, 5],
    ),
    (
        "a b c d e | x\nx:B c d\nb e\na x:B\nb x:A d\n",
        4,
        &[2, 1, 0],
    ),
    (
        "a b c d e | x y\ny:A x:A d c\ne c a\na\ne b x:A\nd e\n",
        4,
        &[3, 2, 0],
    ),
    (
        "a b c d e | x y\ne b x:A d y:B a\nx:C e\nx:B y:A d\ny:A d c\ny:A b a\nx:A\nd x:C b e\nc a y:A x:A\nx:A\n",
        4,
        &[3, 4, 1],
    ),
    (
        "a b c d | x y\na d y:B\nx:A\ny:A b\nx:B\ny:B b c a x:B\nc y x\nc\na x:A\nx:A b d\n",
        5,
        &[6, 5, 4],
    ),
    (
        "a b | x\nx:blue\nx a\nx:red\nx:red\na x:blue\nx b\nb x:blue\nx\n",
        4,
        &[1, 3],
    ),
    (
        "a b c d e | x y\nx:blue b e\nc\ny:blue x e b\nc a y:blue d b\ny\nd y:blue\ny:red\nx:blue d a\na c\n",
        4,
        &[0, 5, 1],
    ),
    (
        "a b c d | x\nc x:B\na x:B\na x:B d\nd c x:A a\nc x:B d a\na x:A\nb\nx:A c\nx:A\n",
        4,
        &[6, 2, 0],
    ),
    (
        "a b c d | x y\ny:A d x:A a b\ny:A c a\nx:A y:A a\nc x:B\nx:B d\nd a b x:B\n",
        4,
        &[5, 3],
    ),
    (
        "a b c d e | x y z\ny:C e z:B\ne d\ne b a c x:C y:A\nd b z:B c\nc x:B d\nx:B z:B y:A e a\ny:A\nd z:C c\ne z:C x:B b y:A\n",
        4,
        &[5, 3],
    ),
    (
        "a b c d e | x y\ny:B e\nx:B b a d\nx:A y:B\nb x:A y:A a\nx:A y:B\nx:A d c\n",
        3,
        &[],
    ),
    (
        "a b c d | x y z\ny:A b a z:A x:A\na x:B c y:A\nx:B y:B\ny:A z:A d\nb c z:A\n",
        4,
        &[],
    ),
    (
        "a b c d e | x y z\nx:blue c b y\ny:blue z e a\ne z:red a\ny:blue a x z:blue\na\nx:red b z\nx c z y\nc d x:red\n",
        3,
        &[],
    ),
    (
        "a b c | x y z\nx:A z:C\nx:C a z:A\nx:B y:B c b\nz:A y:B c\nb y:A\n",
        3,
        &[],
    ),
    (
        "a b c d e | x y\ny:C x:A d a\ne y:A a\ny:C d x:C\nd e y:B x:B\nx:B b y:C\na y:A\nb a x:C\nx:C y:A c a d\nx:B c b\n",
        4,
        &[],
    ),
    (
        "a b c d | x y z\ny:A d\nd y z x:A\nx z a\nb z:A\ny\ny c z:A d\nx:A\ny a z:A\nx:A d\n",
        3,
        &[],
    ),
];

#[test]
fn searches_with_colours_agree(rt: HostRuntime) {
    for (text, visits, first) in SEARCHES.iter() {
        assert!(rt; ends_so(&rt, rt.alloc(), text, *visits, first), "{text}");
    }
}
