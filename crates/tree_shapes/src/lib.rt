// Every shape that N entries can have, by its number: how many there are of each size parameter, and the counts of each.
#![tactic(auto)]

ghost use Rattle.std.specs.Prelude.{◌≡◌, ◌+◌, ◌^◌, ◌<◌, ◌≤◌, length};
ghost use Rattle.tree_counts.specs.Counts.{shape_counts};
ghost use Rattle.tree_shapes.specs.Shapes.{shape_at, tree_count, shape_count};
ghost use Rattle.tree_shapes.specs.Words.{face_words, tree_words, root_candidates, IsNumber, Put, ShapeReady};

use tree_sizes::Size;

// How many trees a range with c candidates, `levels` above the leaves, can have.
fn tree_count(c: usize, levels: usize) -> usize
    requires some { 0 < c }
    requires few { tree_count c levels < 2 ^ 32 }
    ensures { result ≡ tree_count c levels }
{
    if levels == 0 {
        return 1;
    }
    let half = tree_count(Size::half_candidates(c), levels - 1);
    c * (half * half)
}

// The number of candidates of the root; 1 where it is a leaf.
fn root_candidates(size: Size) -> usize
    requires { size.m < 2 ^ 32 }
    ensures { result ≡ root_candidates size.m }
{
    let levels = size.height();
    if levels == 0 {
        return 1;
    }
    size.candidates(0)
}

// How many shapes with this size parameter there are.
pub fn shape_count(size: Size) -> usize
    requires small { size.m < 2 ^ 32 }
    requires few { shape_count size.m < 2 ^ 32 }
    ensures { result ≡ shape_count size.m }
{
    let c = root_candidates(size);
    tree_count(c, size.height())
}

// Puts in the word that decides this face of a draw among c, which reads none where c is 1, and gives the place behind it.
fn put_face(c: usize, face: usize, words: &mut [u32], at: usize) -> usize
    requires inside { at < length words.old }
    requires small { face < 2 ^ 32 }
    ensures { Put words.old at (face_words c face) words.new result }
{
    if c == 1 {
        return at;
    }
    words[at] = face as u32;
    at + 1
}

// Puts in the words on which a range with c candidates, `levels` above the leaves, comes out with its tree k, and gives the place behind them.
fn put_words(c: usize, levels: usize, k: usize, words: &mut [u32], at: usize) -> usize
    requires number { IsNumber c levels k }
    requires room { at + 2 ^ levels ≤ length words.old }
    ensures { Put words.old at (tree_words c levels k) words.new result }
{
    if levels == 0 {
        return at;
    }
    let lower = levels - 1;
    let half = Size::half_candidates(c);
    let count = tree_count(half, lower);
    let both = count * count;
    let rest = k % both;
    let first = rest / count;
    let second = rest % count;
    let left = put_face(c, k / both, words, at);
    let right = put_words(half, lower, first, words, left);
    put_words(half, lower, second, words, right)
}

// Writes the counts, by range number, of shape k of n entries with this size parameter.
pub fn put_shape(size: Size, n: usize, k: usize, counts: &mut [u32])
    requires { ShapeReady size.m n k (length counts.old) }
    ensures { counts.new ≡ shape_counts (length counts.old) n (shape_at n size.m k) }
{
    let mut words = [0u32; 128];
    let c = root_candidates(size);
    put_words(c, size.height(), k, &mut words, 0);
    tree_counts::fresh(size, n, counts, &words, 0);
}
