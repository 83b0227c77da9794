use dataset_desc::Desc;
use filemap::Filemap;
use scr_base::Bytes;

/// A dataset of which some member is whole and sealed, as recovery finds it.
#[derive(Debug, Drop)]
pub struct FoundSet {
    pub desc: Desc,
    /// The files of each rank.
    pub files: Filemap,
    /// The nodes, ascending, of which no physical node holds a whole member.
    pub lost: Bytes,
}
