// Nine pages whose cells the definitions are computed to give.
ghost use Rattle.std.specs.Prelude.{◌≡◌};
ghost use Rattle.cut.specs.Pages.{PagesStand};

/// The definitions give the cells of nine pages, from tokens to text: specs/Pages.antt has them. It answers 0.
pub fn pages_stand() -> u8
    ensures stand { PagesStand }
    ensures answer { result ≡ 0 }
{
    0
}
